//! Schedules from a seed: work for a replay.
#![tactic(auto)]

mod events;
mod laws;
mod maker;

pub use laws::worked_workloads;
pub use maker::make;
