//! What the libraries for C with web pages have in common: what opening a site reports, and what is read of a node.
#![tactic(auto)]

mod open_device;
mod opened;
mod query;
mod row;

pub use opened::{UipOpened, boxed, plain};
pub use query::UipQuery;
pub use row::UipRow;
