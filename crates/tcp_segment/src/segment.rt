ghost use Rattle.std.specs.Prelude.{◌≡◌, ◌+◌, ◌≤◌, length};
ghost use Rattle.tcp_segment.specs.Received.{plain_of};
ghost use Rattle.tcp_segment.specs.Segments.{has_ack, has_fin, has_psh, has_rst, has_syn};

use crate::flags::{ACK, PSH, RST, SYN};
use uip_wire::{Port, Seq};

/// The fields of a checked segment, and where its text is.
#[derive(Clone, Copy, Debug, PartialEq, Eq)]
pub struct Segment {
    pub from: Port,
    pub to: Port,
    pub seq: Seq,
    pub ack: Seq,
    /// The six flags, from FIN 1 to URG 32.
    pub flags: u8,
    pub window: u16,
    /// The value of the option for the maximum segment size, if it is there and not 0.
    pub mss: Option<u16>,
    /// The offset of the text in the datagram.
    pub text_at: usize,
    /// The length of the text in bytes.
    pub text_len: usize,
}

impl Segment {
    /// Returns whether FIN is set: the sender has no more text.
    pub fn has_fin(&self) -> bool
        ensures { result ≡ has_fin self.now.flags }
    {
        self.flags % 2 == 1
    }

    /// Returns whether SYN is set: the sequence number is the sender's initial one.
    pub fn has_syn(&self) -> bool
        ensures { result ≡ has_syn self.now.flags }
    {
        self.flags / SYN % 2 == 1
    }

    /// Returns whether RST is set: the connection is reset.
    pub fn has_rst(&self) -> bool
        ensures { result ≡ has_rst self.now.flags }
    {
        self.flags / RST % 2 == 1
    }

    /// Returns whether PSH is set: the text is to be delivered at once.
    pub fn has_psh(&self) -> bool
        ensures { result ≡ has_psh self.now.flags }
    {
        self.flags / PSH % 2 == 1
    }

    /// Returns whether ACK is set: the acknowledgement number is valid.
    pub fn has_ack(&self) -> bool
        ensures { result ≡ has_ack self.now.flags }
    {
        self.flags / ACK % 2 == 1
    }

    /// Returns the text, in the datagram from which the segment was read.
    pub fn text<'a>(&self, bytes: &'a [u8]) -> &'a [u8]
        requires { self.now.text_at + self.now.text_len ≤ length bytes.now }
        ensures { result.now ≡ (plain_of self.now bytes.now).text }
    {
        &bytes[self.text_at..self.text_at + self.text_len]
    }
}
