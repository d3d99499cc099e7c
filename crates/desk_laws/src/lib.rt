//! What the laws of the link world state of a node with the web server and the shell. Each clean client has a prefix of the
//! text due at its port, retransmissions are identical and marked, and an expired timer sends. The laws are over plain data;
//! the clause `step` of `uip_node` ties the node's code to it.
#![tactic(auto)]

mod laws;

pub use laws::{
    desk_marks_repeats, desk_one_segment, desk_repeats_same_bytes, desk_sends_again, desk_serves,
    sessions_are_short, worked_worlds,
};
