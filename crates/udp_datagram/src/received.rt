//! The payload of a received datagram (RFC 768).

ghost use Rattle.std.specs.Prelude.{◌≡◌, ◌<◌, ◌++◌, length, option_map, true};
ghost use Rattle.udp_datagram.specs.Prelude.{IsWholeUdp, after_header, carries_udp, udp_data, udp_in, udp_pseudo_header};
ghost use Rattle.uip_wire.specs.Prelude.{address_at, checksum_of};

use crate::sums::{UDP, pseudo_sum};
use crate::way::UdpFlow;
use uip_ipv4::{IpFate, check};
use uip_wire::{Addr, get16};

/// Returns the payload of this flow that a datagram carries, if it carries one. Its IP header passes every check of `check` but the last,
/// its protocol is UDP, and its addresses, ports, length and checksum are right.
#[tactic(auto, unfolding(crate::specs::Udp::udp_data))]
pub fn udp_data(way: UdpFlow, datagram: &[u8]) -> Option<&[u8]>
    ensures { option_map (λ payload. payload.now) result ≡ udp_data way datagram.now }
{
    if !carries_udp(way.target, datagram) {
        return None;
    }
    if source_of(datagram) != way.source {
        return None;
    }
    udp_in(way, after_header(datagram))
}

/// Returns the source address of a whole datagram.
fn source_of(datagram: &[u8]) -> Addr
    requires { IsWholeUdp datagram.now }
    ensures { result.0 ≡ address_at datagram.now 12 }
{
    Addr::get(datagram, 12)
}

/// Returns the bytes after the IP header of a whole datagram, up to its total length.
fn after_header(datagram: &[u8]) -> &[u8]
    requires { IsWholeUdp datagram.now }
    ensures { result.now ≡ after_header datagram.now }
{
    &datagram[20..usize::from(get16(datagram, 2))]
}

/// Returns whether a whole datagram to this address carries UDP.
fn carries_udp(own: Addr, datagram: &[u8]) -> bool
    ensures exact { result ≡ carries_udp own.0 datagram.now }
    ensures whole { result ≡ true → IsWholeUdp datagram.now }
{
    match check(datagram, own) {
        Err(IpFate::Protocol) => datagram[9] == UDP,
        _ => false,
    }
}

/// Returns the payload of a UDP datagram of this flow.
fn udp_in(way: UdpFlow, udp: &[u8]) -> Option<&[u8]>
    ensures { option_map (λ payload. payload.now) result ≡ udp_in way udp.now }
{
    if udp.len() < 8 {
        return None;
    }
    if get16(udp, 0) != way.from.0 || get16(udp, 2) != way.to.0 {
        return None;
    }
    let len = get16(udp, 4);
    let end = usize::from(len);
    if end < 8 || udp.len() < end {
        return None;
    }
    if get16(udp, 6) != 0 && checksum(way, &udp[..end], len) != 0 {
        return None;
    }
    Some(&udp[8..end])
}

/// Returns the checksum over a received UDP datagram: 0 if the one in it is right.
fn checksum(way: UdpFlow, udp: &[u8], len: u16) -> u16
    ensures { result ≡ checksum_of (udp_pseudo_header way len ++ udp.now) }
{
    let mut sum = pseudo_sum(way, len);
    sum.add(udp);
    sum.finish()
}
