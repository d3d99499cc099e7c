//! Socket pairs (RFC 793, section 1.5).

use uip_wire::{Addr, Port};

/// The sockets of a connection, beside the node's own address (RFC 793, section 1.5).
#[derive(Clone, Copy, Debug, PartialEq, Eq)]
pub struct SocketPair {
    pub peer: Addr,
    pub peer_port: Port,
    pub own_port: Port,
}
