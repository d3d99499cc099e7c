//! The basic data of the Internet protocols: addresses, ports, sequence numbers, big-endian fields, decimal numerals, and the checksum.
//! Every layer above reads and writes headers through these calls, and is specified by the definitions in `specs/`.
#![tactic(auto)]

mod addr;
mod copying;
mod fields;
mod laws;
mod numerals;
mod port;
mod seq;
mod sizes;
mod summer;
mod sums;

pub use addr::Addr;
pub use copying::copy_bytes;
pub use fields::{get16, get32, put16, put32};
pub use laws::constant_values;
pub use numerals::{is_numeral, numeral, numerals_print};
pub use port::{Port, WEB_PORT};
pub use seq::Seq;
pub use sizes::{LARGEST_DATAGRAM, OWN_MSS};
pub use summer::Summer;
pub use sums::{checksum, checksum_joined, one_byte_detected};
