//! A client of a replay: a small TCP that requests a page over the link. It sends one segment at a time, accepts text only at
//! RCV.NXT, and never acts by itself. `specs/` defines its step over plain data, and each call of the code does it.
#![tactic(auto)]

mod client;
mod client_state;
mod fin_at;
mod input;
mod output;
mod setup;
mod steps;
mod took;

pub use client::Client;
pub use client_state::ClientState;
pub use fin_at::FinAt;
pub use setup::Setup;
pub use took::Took;
