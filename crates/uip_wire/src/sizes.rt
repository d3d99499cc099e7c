/// The longest datagram that is received or sent, in bytes.
pub const LARGEST_DATAGRAM: usize = 1500;

/// The largest text of a segment that this node accepts, in bytes: a datagram without its two headers of 20 bytes. It is also the window
/// that the node advertises.
pub const OWN_MSS: u16 = 1460;
