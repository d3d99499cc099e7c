/// Who sent a datagram. Clients are numbered from 1.
#[derive(Clone, Copy, Debug, PartialEq, Eq)]
pub enum Who {
    FromClient(u8),
    /// From the node to this client, or 0 if it goes to none.
    FromNode(u8),
    /// A host that only sends echo requests.
    Pinger,
}
