//! A box split into its pointer and its allocator, and made again. The parts own what the box owned, so that a struct can store
//! a box by its address alone.
#![tactic(auto)]

mod parts;

pub use parts::BoxParts;
