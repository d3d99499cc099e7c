use uip_wire::{Addr, Port};

/// A flow: the source and the target of a datagram.
#[derive(Clone, Copy, Debug, PartialEq, Eq)]
pub struct UdpFlow {
    pub source: Addr,
    pub target: Addr,
    /// The port at the source.
    pub from: Port,
    /// The port at the target.
    pub to: Port,
}
