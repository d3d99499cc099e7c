//! What the trace of a node with two applications shows; laws only.
#![tactic(auto)]

mod laws;
#[cfg(test)]
mod tests;

pub use laws::{pair_speaks_on_lines, pair_trace_conforms};
