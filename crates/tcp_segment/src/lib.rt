//! TCP segments (RFC 793, section 3.1): the fields of a received one, and the datagram of one that is sent. The first check that fails is
//! the segment's fate. In `specs/` a segment is also a plain record, on which the machines above step. By a law its datagram is read back
//! as that record.
#![tactic(auto)]

mod fate;
mod flags;
mod headers;
mod laws;
mod options;
mod out;
mod received;
mod segment;
mod sent;
mod sums;

pub use fate::TcpFate;
pub use flags::{ACK, FIN, PSH, RST, SYN};
pub use laws::constant_values;
pub use out::Out;
pub use received::check;
pub use segment::Segment;
pub use sent::{put, put_in, reads_back};
