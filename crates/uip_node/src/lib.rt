//! The node: ten connections over one packet buffer. `specs/` defines over plain data what a node is and how each event changes it; all of
//! its numbers are counts over its history.
#![tactic(auto)]

pub mod counter;
mod event_counts;
mod increments;
mod laws;
mod listing;
mod node;
mod output;
mod slot_events;

pub use laws::constant_values;
pub use node::Node;
