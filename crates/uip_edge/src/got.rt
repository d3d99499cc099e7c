/// What one call of a link returned.
#[derive(Clone, Copy, Debug, PartialEq, Eq)]
pub enum Got {
    /// This many bytes, at the start of the buffer.
    Bytes(usize),
    /// One silence.
    Quiet,
    /// The end: nothing is left to come.
    End,
}
