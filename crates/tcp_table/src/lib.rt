//! The table of connections: ten slots, of which no two that are not CLOSED have the same peer and ports. It finds the connection of a
//! segment and the slot that a SYN may take, and has the ISS of the next connection. No field of a connection holds bytes that were sent.
#![tactic(auto)]

mod conn;
mod search;
mod table;

pub use conn::Conn;
pub use table::{CONNECTIONS, Table};

#[cfg(test)]
mod tests;
