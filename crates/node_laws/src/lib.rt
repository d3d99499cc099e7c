//! The guarantee on every trace of a node, for any events and any peers, with forged and damaged datagrams. Every incarnation of a
//! connection conforms, and any receiver has a prefix of one text, which is part of one page if the application has pages.
#![tactic(auto)]

mod laws;

pub use laws::{
    arrives_under_loss, every_trace_conforms, every_trace_of_pages_conforms, honest_peer,
    plainest_receives, retransmits_or_resets, windows_are_respected, wrong_incarnations_fall,
};
