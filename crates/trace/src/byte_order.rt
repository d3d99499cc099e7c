/// The order of the bytes in the numbers of a capture file.
#[derive(Clone, Copy, Debug, PartialEq, Eq)]
pub(crate) enum ByteOrder {
    /// The high byte is first.
    Big,
    /// The low byte is first.
    Little,
}
