//! The buffer in which a line or a record is made.

use text_buffer::Text;
use uip_wire::LARGEST_DATAGRAM;

/// The greatest length of a record in bytes: its four numbers, and the longest datagram. A line of a dump is far shorter.
pub(crate) const LONGEST_RECORD: usize = 16 + LARGEST_DATAGRAM;

/// A buffer in which a line or a record is made, so that one write sends it.
pub(crate) type Area = Text<LONGEST_RECORD>;
