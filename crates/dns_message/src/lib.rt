//! DNS messages over UDP (RFC 1035): the query for the address of a name, which reply matches it, and what the reply answers. No call is
//! passed an allocator.
#![tactic(auto)]

mod answer;
mod laws;
mod message;
mod name;
mod query;
mod record;

pub use answer::Answer;
pub use laws::{constant_values, queries_are_read_back, records_are_spelled};
pub use name::{LONGEST_NAME, Name};
pub use query::{ASKING_PORT, Asking, SERVER_PORT};
