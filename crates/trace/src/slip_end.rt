//! The ends of `slip`.

/// What is wrong with a capture file.
#[derive(Clone, Copy, Debug, PartialEq, Eq)]
pub enum CaptureWhy {
    /// Its header is not supported: another magic number, version or link type.
    Head,
    /// It ends inside its header or inside a record.
    Cut,
    /// A record is longer than the longest datagram.
    Length,
}

/// How the reading of a capture file ended.
#[derive(Clone, Copy, Debug, PartialEq, Eq)]
pub enum SlipEnd {
    /// The link ended after the header or after a whole record.
    End,
    /// A call of the link failed.
    LinkFault,
    /// A call of the sink failed.
    WriteFault,
    /// The permitted number of items was consumed.
    Budget,
    /// The file has a fault in the record with this number, counted from 1; the header has number 0.
    Bad { number: u64, why: CaptureWhy },
}
