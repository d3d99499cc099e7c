/// What is written of the frames of a line.
#[derive(Clone, Copy, Debug, PartialEq, Eq)]
pub(crate) enum Form {
    /// A line of text for each frame.
    Dump,
    /// A capture file of the datagrams.
    Capture,
}
