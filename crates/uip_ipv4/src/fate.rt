/// Why a datagram is dropped, in the order of the checks.
/// [add: fate] IP: a variant, in the order of the checks.
#[derive(Clone, Copy, Debug, PartialEq, Eq)]
pub enum IpFate {
    /// It has fewer than 20 bytes.
    Short,
    /// It has another version than 4, or a header with options.
    Version,
    /// Its total length is below the header's, or above what was received.
    Length,
    /// It is a fragment of a larger datagram.
    Fragment,
    /// The header's checksum is wrong.
    Checksum,
    /// It is for another address.
    NotOurs,
    /// It carries neither ICMP nor TCP.
    Protocol,
}
