//! The flags of a segment as bits of one number (RFC 793, section 3.1).

/// The sender has no more text.
pub const FIN: u8 = 1;
/// The sequence number is the sender's initial one.
pub const SYN: u8 = 2;
/// The connection is reset.
pub const RST: u8 = 4;
/// The text is to be delivered at once.
pub const PSH: u8 = 8;
/// The acknowledgement number is valid.
pub const ACK: u8 = 16;
