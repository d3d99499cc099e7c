use uip_wire::Addr;

/// One act in a world. Clients and datagrams are numbered from 1.
/// [add: act] A variant.
#[derive(Clone, Copy, Debug, PartialEq, Eq)]
pub enum Act {
    Opens(u8),
    Again(u8),
    Closes(u8),
    Aborts(u8),
    Window(u8, u16),
    Ping(Addr),
    /// The datagram of this number is delivered.
    Give(u32),
    /// The datagram is delivered with its byte at an offset changed, by exclusive or with the mask.
    Damage { number: u32, at: u16, mask: u8 },
    Tick,
}
