//! One connection of TCP, event by event (RFC 793, section 3.9). Each event is a step of the table in `specs/OnSegment.antt`, and returns
//! as a `Step` what the node is to send. The layers above are proved against the definitions in `specs/`.
#![tactic(auto)]

mod app_request;
mod closing_states;
mod delivery;
mod laws;
mod passive_open;
mod segment_arrives;
mod step;
mod timeouts;
mod transitions;

pub use app_request::{ask, ask_prepared, is_due, prepare};
pub use laws::constant_values;
pub use passive_open::{DEFAULT_MSS, accept};
pub use segment_arrives::on_segment;
pub use step::Step;
pub use timeouts::{REST_TIME, on_tick};
