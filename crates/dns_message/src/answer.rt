use uip_wire::Addr;

/// What a reply answers for a name.
#[derive(Clone, Copy, Debug, PartialEq, Eq)]
pub enum Answer {
    /// The first address in it.
    Address(Addr),
    /// None of its answer records is an address.
    NoAddress,
    /// The server returned this response code, which is not 0.
    Code(u8),
}
