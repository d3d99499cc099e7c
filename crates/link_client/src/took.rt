/// The result of a datagram at a client.
#[derive(Clone, Copy, Debug, PartialEq, Eq)]
pub struct Took {
    /// The length of the datagram that it sends, at the start of the area, in bytes.
    pub sent: Option<usize>,
    /// The offset in the datagram of the text that it accepted in order, and its length in bytes; both 0 if it accepted none.
    pub fresh_at: usize,
    pub fresh_len: usize,
}
