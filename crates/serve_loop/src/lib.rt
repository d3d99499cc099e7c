//! A node on a line. What the line brings over a medium is input to the node, datagram by datagram and tick by tick. The output of the node
//! and the medium is written at once. The clauses define the output over the whole list of items consumed, however the link cuts them. A
//! serial line is the first medium.
#![tactic(auto)]

mod laws;
mod line_loop;
mod line_turn;
mod node_output;
mod pacer;
mod slip;

pub use laws::{serial_lines_bring_bytes, serial_station_events_are_events};
pub use line_loop::{budget_is_reported, end_is_reported, serve, serve_over};
pub use line_turn::poll_link;
pub use pacer::Pacer;
pub use slip::Slip;
