//! The datagram that is sent (RFC 768).

ghost use Rattle.std.specs.Prelude.{◌≡◌, ◌+◌, ◌≤◌, ◌∷◌, ◌++◌, [], length};
ghost use Rattle.udp_datagram.specs.Udp.{ReadsBack, sent_sum, udp_datagram, udp_sum, udp_with};
ghost use Rattle.uip_wire.specs.Prelude.{bytes_of};

use crate::sums::{UDP, pseudo_sum};
use crate::way::UdpFlow;
use arrayvec::ArrayVec;
use uip_ipv4::put_numbered_head;
use uip_wire::{LARGEST_DATAGRAM, put16};

/// The bytes of the IP header and of the UDP header.
const HEADERS: usize = 28;

/// Returns the datagram that carries the payload, at most 1472 bytes, with an identification of the IP header.
#[tactic(auto, unfolding(crate::specs::Udp::udp_datagram))]
pub fn udp_datagram(way: UdpFlow, id: u16, payload: &[u8]) -> ArrayVec<u8, LARGEST_DATAGRAM>
    requires { HEADERS + length payload.now ≤ LARGEST_DATAGRAM }
    ensures { result.items ≡ udp_datagram way id payload.now }
{
    let total = (HEADERS + payload.len()) as u16;
    let mut head = [0u8; 20];
    put_numbered_head(&mut head, total, id, UDP, way.source, way.target);
    let udp = header(way, payload);
    let mut datagram: ArrayVec<u8, LARGEST_DATAGRAM> = ArrayVec::new();
    let _head_fits = datagram.try_extend_from_slice(&head);
    let _udp_fits = datagram.try_extend_from_slice(&udp);
    let _data_fits = datagram.try_extend_from_slice(payload);
    datagram
}

/// A payload that was sent in a flow is received in it.
pub fn reads_back()
    ensures { ReadsBack }
{}

/// Returns the UDP header of this payload.
fn header(way: UdpFlow, payload: &[u8]) -> [u8; 8]
    requires { HEADERS + length payload.now ≤ LARGEST_DATAGRAM }
    ensures { result ++ payload.now ≡ udp_with (udp_sum way payload.now) way payload.now }
{
    let mut header = header_without_sum(way, payload.len());
    let mut sum = pseudo_sum(way, 8 + payload.len() as u16);
    sum.add(&header);
    sum.add(payload);
    put16(&mut header, 6, sent_sum(sum.finish()));
    header
}

/// Returns the same with 0 in place of the checksum.
fn header_without_sum(way: UdpFlow, len: usize) -> [u8; 8]
    requires { HEADERS + len ≤ LARGEST_DATAGRAM }
    ensures { result ≡ bytes_of (way.from.0 ∷ way.to.0 ∷ (8 + len) ∷ 0 ∷ []) }
{
    let [from_high, from_low] = way.from.0.to_be_bytes();
    let [to_high, to_low] = way.to.0.to_be_bytes();
    let [len_high, len_low] = (8 + len as u16).to_be_bytes();
    [
        from_high, from_low, to_high, to_low, len_high, len_low, 0, 0,
    ]
}

/// Returns the checksum as it is sent: 0 is sent as 65535, since 0 means that there is none.
fn sent_sum(sum: u16) -> u16
    ensures { result ≡ sent_sum sum }
{
    if sum == 0 { 65535 } else { sum }
}
