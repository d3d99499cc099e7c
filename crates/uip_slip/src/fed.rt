/// What a byte completed.
#[derive(Clone, Copy, Debug, PartialEq, Eq)]
pub enum Fed {
    /// Nothing.
    More,
    /// A datagram of this many bytes, 1 to 1500.
    Datagram(usize),
    /// A frame of more bytes than the largest datagram has, which is dropped.
    Overlong,
}

/// The number of bytes consumed, and what the last of them completed.
#[derive(Clone, Copy, Debug, PartialEq, Eq)]
pub struct FedRun {
    pub count: usize,
    pub fed: Fed,
}
