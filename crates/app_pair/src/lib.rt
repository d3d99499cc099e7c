//! Two applications on one node, by port. They share nothing: a call of one sees its own numbers only, and changes no number of the other.
#![tactic(auto)]

mod can_pair;
mod laws;
mod pair;
#[cfg(test)]
mod tests;

pub use can_pair::CanPair;
pub use laws::{pair_is_two_applications, worked_pairs};
pub use pair::{AppPair, PairShared};
