use uip_wire::{Addr, Port, Seq};

/// The setup of a client.
#[derive(Clone, Copy, Debug, PartialEq, Eq)]
pub struct Setup {
    pub addr: Addr,
    pub port: Port,
    /// The value of the MSS option of its SYN, in bytes; 0 is a SYN without the option.
    pub mss: u16,
    /// The longest text of a segment that it sends, from 1 to 1460 bytes.
    pub seg: u16,
    /// ISS: the number of its SYN.
    pub iss: Seq,
    pub server: Addr,
    pub server_port: Port,
}
