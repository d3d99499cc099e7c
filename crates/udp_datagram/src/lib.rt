//! UDP over IPv4 (RFC 768): the datagram that carries a payload from one port to another, and the payload of a received one. No call is
//! passed an allocator.
#![tactic(auto)]

mod received;
mod sent;
mod sums;
mod way;

pub use received::udp_data;
pub use sent::{reads_back, udp_datagram};
pub use way::UdpFlow;
