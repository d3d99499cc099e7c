//! The link layer of a node: a medium decodes datagrams from the bytes of a line, encodes datagrams, and may act by itself. Its
//! specification is defined over whole lists: the bytes before, and its own events before.
#![tactic(auto)]

mod medium;

pub use medium::{Decoded, DecodedRun, Medium};
