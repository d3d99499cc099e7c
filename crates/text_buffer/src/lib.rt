//! Text that is built in a buffer of its own, so that one write sends it.
#![tactic(auto)]

mod text;

pub use text::Text;
