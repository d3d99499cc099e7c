//! Sizes in bytes, and the limits of the ARP table.

/// The bytes of a frame before its payload, which are also the shortest frame that is accepted.
pub const SMALLEST_FRAME: usize = 14;

/// The longest frame that is accepted or sent, in bytes: 14 bytes and the largest datagram.
pub const LARGEST_FRAME: usize = 1514;

/// The length of a frame with an ARP packet, in bytes.
pub const ARP_FRAME: usize = 42;

/// The most addresses that are known at once.
pub const ARP_ENTRIES: usize = 8;

/// The ticks after its last learning at which an address is forgotten.
pub const ARP_TICKS: u16 = 2400;

/// The shortest datagram that is sent, in bytes, which is its header alone.
pub const SMALLEST_DATAGRAM: usize = 20;

/// The longest frame with its length in two bytes.
pub const LARGEST_FRAMED: usize = LARGEST_FRAME + 2;
