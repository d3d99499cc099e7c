//! An application that the program answers for: a connection stores what it received until the program takes it, and one message of the
//! program until it is acknowledged.
#![tactic(auto)]

mod app;
mod laws;
mod ports;
mod record;
mod shared;
#[cfg(test)]
mod tests;

pub use app::OwnApp;
pub use laws::{constant_values, own_app_speaks_on_lines, own_trace_conforms};
pub use ports::{is_open_port, is_program_port};
pub use shared::{Message, OwnShared};

/// The bytes of received text that a connection stores. A connection that receives more before the program takes some is given up.
pub const RECEIVED_ROOM: usize = 128;

/// The longest message, in bytes: a frame of Modbus/TCP has at most 7 bytes of header and 253 of data.
pub const MESSAGE_ROOM: usize = 260;

/// The most ports that are open at a time.
pub const MOST_PORTS: usize = 4;

/// A connection that neither receives nor sends for this number of ticks is given up: ten minutes.
pub const MOST_SILENT_POLLS: u16 = 1200;
