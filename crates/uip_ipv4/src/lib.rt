//! The IPv4 header without options (RFC 791): the checks of a received one, and the header that this node writes. The first check that
//! fails is the datagram's fate. It needs `uip_wire` alone and reads no byte after the header.
#![tactic(auto)]

mod fate;
mod head;
mod proto;
mod received;
mod sent;

pub use fate::IpFate;
pub use head::IpHead;
pub use proto::Proto;
pub use received::check;
pub use sent::{put_head, put_numbered_head, reads_back};
