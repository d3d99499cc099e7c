use uip_wire::{Addr, Port, Seq};

/// A segment to be sent, whose text is already at its offset in the datagram.
#[derive(Clone, Copy, Debug, PartialEq, Eq)]
pub struct Out {
    pub source: Addr,
    pub target: Addr,
    pub from: Port,
    pub to: Port,
    pub seq: Seq,
    pub ack: Seq,
    pub flags: u8,
    pub window: u16,
    /// The value of the option for the maximum segment size, which goes with no text.
    pub mss: Option<u16>,
    /// The length of the text in bytes.
    pub len: usize,
    /// The identification of the datagram.
    pub id: u16,
}
