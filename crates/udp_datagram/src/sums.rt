ghost use Rattle.std.specs.Prelude.{◌≡◌};
ghost use Rattle.udp_datagram.specs.Udp.{udp_pseudo_header};
ghost use Rattle.uip_wire.specs.Prelude.{sum_of};

use crate::way::UdpFlow;
use uip_wire::{Summer, put16};

/// The protocol number of UDP (RFC 790).
pub(crate) const UDP: u8 = 17;

/// Returns the sum with which a checksum begins: that of the pseudo header for a UDP datagram of `len` bytes.
pub(crate) fn pseudo_sum(way: UdpFlow, len: u16) -> Summer
    ensures { result ≡ sum_of (udp_pseudo_header way len) }
{
    let mut protocol_and_len = [0, UDP, 0, 0];
    put16(&mut protocol_and_len, 2, len);
    let mut sum = Summer::new();
    sum.add(&way.source.0);
    sum.add(&way.target.0);
    sum.add(&protocol_and_len);
    sum
}
