//! Tests over the crates below, with ample memory: that a call which may fail with NoMemory does its work. `Counter` is an
//! application for these tests; it shows that the node can serve others than those of the program. No crate depends on this
//! one.
#![tactic(auto)]

mod counting;

pub use counting::{Counter, Tally};

#[cfg(test)]
mod captures;
#[cfg(test)]
mod dumps;
#[cfg(test)]
mod example_image;
#[cfg(test)]
mod fields;
#[cfg(test)]
mod lines;
#[cfg(test)]
mod loads;
#[cfg(test)]
mod losing;
#[cfg(test)]
mod node;
#[cfg(test)]
mod numbers;
#[cfg(test)]
mod shell;
#[cfg(test)]
mod site;
#[cfg(test)]
mod sites;
#[cfg(test)]
mod sizes;
#[cfg(test)]
mod talking;
#[cfg(test)]
mod web;
#[cfg(test)]
mod worlds;
