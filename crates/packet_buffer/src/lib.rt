//! The one packet of the stack: an area in which a datagram is received, answered and sent, with the length of that datagram. `new`
//! allocates it once; its size never changes.
#![tactic(auto)]

mod laws;
mod packet;

pub use laws::constant_values;
pub use packet::{LEAST_AREA, Packet};
