/// Why a message is not answered, in the order of the checks.
/// [add: fate] ICMP: a variant, in the order of the checks.
#[derive(Clone, Copy, Debug, PartialEq, Eq)]
pub enum IcmpFate {
    /// It has fewer than 8 bytes after the IP header.
    Short,
    /// The message's checksum is wrong.
    Checksum,
    /// It has another type or code than an echo request.
    NotEcho,
}
