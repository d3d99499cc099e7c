use crate::byte_order::ByteOrder;

/// What is read next of a capture file.
#[derive(Clone, Copy, Debug, PartialEq, Eq)]
pub(crate) enum Stage {
    /// The header.
    Header,
    /// The times and lengths of a record.
    Head(ByteOrder),
    /// The datagram of a record.
    Body(ByteOrder),
}
