ghost use Rattle.std.specs.Prelude.{◌≡◌};
ghost use Rattle.uip_ipv4.specs.Head.{number_of, proto_of};

/// The protocol of a datagram (RFC 790).
#[derive(Clone, Copy, Debug, PartialEq, Eq)]
pub enum Proto {
    /// Protocol 1.
    Icmp,
    /// Protocol 6.
    Tcp,
}

impl Proto {
    /// Returns the protocol of this number, if it is one of ours.
    pub(crate) fn from_number(number: u8) -> Option<Proto>
        ensures { result ≡ proto_of number }
    {
        match number {
            1 => Some(Proto::Icmp),
            6 => Some(Proto::Tcp),
            _ => None,
        }
    }

    /// Returns the protocol's number.
    pub(crate) fn number(self) -> u8
        ensures { result ≡ number_of self }
    {
        match self {
            Proto::Icmp => 1,
            Proto::Tcp => 6,
        }
    }
}
