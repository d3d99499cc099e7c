//! The checks of an echo request, and the reply.

ghost use Rattle.std.specs.Prelude.{◌≡◌, MatchResult, OnErr, OnOk, None, Some, length};
ghost use Rattle.icmp_echo.specs.Prelude.{answered, echo_fate, fate_in};
ghost use Rattle.packet_buffer.specs.Prelude.{datagram_in};
ghost use Rattle.uip_ipv4.specs.Prelude.{IsHeadOf};

use crate::answer::answer;
use crate::fate::IcmpFate;
use packet_buffer::Packet;
use uip_ipv4::IpHead;
use uip_wire::checksum;

/// Turns the echo request in the packet into its reply, with the datagram's total length. Bytes after it are cut off. Fails with the first
/// check that the message fails.
#[inline(always)]
pub fn reply(packet: &mut Packet, head: &IpHead) -> Result<(), IcmpFate>
    requires { IsHeadOf head.now (datagram_in packet.old) }
    ensures fate { MatchResult result (λ _. fate_in head.now packet.old ≡ None) (λ fate. fate_in head.now packet.old ≡ Some fate) }
    ensures reply { OnOk result (packet.new ≡ answered head.now packet.old) }
    ensures unchanged { OnErr result (packet.new ≡ packet.old) }
{
    let total = usize::from(head.total);
    let datagram = packet.bytes();
    if let Some(fate) = fate_of(&datagram[20..total]) {
        return Err(fate);
    }
    answer(packet.area_mut(), total);
    packet.set_len(total);
    Ok(())
}

/// Returns the first check that a message fails.
/// [add: fate] ICMP: its check.
#[inline(always)]
fn fate_of(message: &[u8]) -> Option<IcmpFate>
    ensures { result ≡ echo_fate message.now }
{
    if message.len() < 8 {
        Some(IcmpFate::Short)
    } else if checksum(message) != 0 {
        Some(IcmpFate::Checksum)
    } else if message[0] != 8 || message[1] != 0 {
        Some(IcmpFate::NotEcho)
    } else {
        None
    }
}
