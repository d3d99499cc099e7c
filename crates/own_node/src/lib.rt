//! A node with the application for which the program answers, alone or in a pair. Between the calls of a node the program reads what a
//! connection received, and writes a message to it.
#![tactic(auto)]

mod holding;
mod laws;
mod message_output;
mod port_status;
mod ports;
#[cfg(test)]
mod tests;

pub use holding::HoldsOwn;
pub use laws::{pairs_capture_ready_messages, ready_messages_are_captured};
pub use message_output::write;
pub use port_status::{is_ready, own_port, pending};
pub use ports::{is_for_closed_port, is_for_closed_port_of_pair};
