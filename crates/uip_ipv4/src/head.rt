use crate::proto::Proto;
use uip_wire::Addr;

/// The fields of a checked header.
#[derive(Clone, Copy, Debug, PartialEq, Eq)]
pub struct IpHead {
    /// The length of the whole datagram in bytes. What was received after it is no part of the datagram.
    pub total: u16,
    pub proto: Proto,
    pub source: Addr,
    pub target: Addr,
}
