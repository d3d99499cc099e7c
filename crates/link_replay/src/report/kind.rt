//! What a line of the report shows of a datagram.

/// What a datagram is, as a report shows it.
#[derive(Clone, Copy, Debug, PartialEq, Eq)]
pub enum Kind {
    /// A segment with its flags, its sequence number and the length of its text.
    Segment { flags: u8, seq: u32, len: usize },
    EchoRequest,
    EchoReply,
}
