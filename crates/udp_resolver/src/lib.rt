//! A DNS resolver over a serial line (RFC 1035). It queries a server for the addresses of names, sends the queries again while the server
//! is silent, and reports the fate of each name. Its output is defined over the whole list of items that it took, however the link cuts
//! them. No call is passed an allocator.
#![tactic(auto)]

mod answers;
mod clock;
mod fate;
mod laws;
mod lines;
mod resolver;
mod run;
mod sender;
#[cfg(test)]
mod tests;

pub use dns_message::{LONGEST_NAME, Name};
pub use fate::Fate;
pub use laws::{
    addresses_are_from_replies, budget_is_reported, constant_values, end_is_reported,
    events_are_of_the_line,
};
pub use resolver::resolve;

/// The most names that are queried at once.
pub const MOST_NAMES: usize = 4;
