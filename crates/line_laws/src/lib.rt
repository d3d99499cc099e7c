//! The guarantee of `node_laws`, stated for a line: for the items received and the text written.
#![tactic(auto)]

mod laws;

pub use laws::{every_line, every_line_arrives, every_prefix, every_serial_line};
