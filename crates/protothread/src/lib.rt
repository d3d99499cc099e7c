//! Protothreads as values (Dunkels 2006): a thread that sends text, or receives bytes, stores only its resume point. What it
//! reads, its world, is passed at each call. Threads are combined in sequence (`Then`), and with a child that is sent before
//! its parent continues (`Child`).
#![tactic(auto)]

mod both;
mod child;
mod hears;
mod laws;
mod run;
mod says;
mod then;

pub use child::Child;
pub use hears::Hears;
pub use laws::fills_in_turn;
pub use run::Run;
pub use says::Says;
pub use then::Then;

#[cfg(test)]
mod tests;
