/// Why a segment is dropped, in the order of the checks.
/// [add: fate] TCP: a variant, in the order of the checks.
#[derive(Clone, Copy, Debug, PartialEq, Eq)]
pub enum TcpFate {
    /// It has fewer than 20 bytes after the IP header.
    Short,
    /// Its data offset is below 5, or reaches beyond the segment.
    Offset,
    /// The checksum over the pseudo header and the segment is wrong.
    Checksum,
}
