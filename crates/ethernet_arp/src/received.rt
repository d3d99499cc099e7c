//! A received frame (RFC 894, RFC 826).

ghost use Rattle.std.specs.Prelude.{◌≡◌, ◌≤◌, ◌-◌, ◌++◌, ◌&&◌, ◌||◌, List, bytes_eq, drop, length, nat_lt, ℕ};
ghost use Rattle.uip_wire.specs.Prelude.{word_at};
ghost use Rattle.line_medium.specs.Prelude.{acts_among};
ghost use Rattle.ethernet_arp.specs.Frames.{arp_brings, broadcast, frame_brings, is_arp, is_arp_for, is_datagram};
ghost use Rattle.ethernet_arp.specs.Frames.{payload_brings, arp_reply, sender_of};
ghost use Rattle.ethernet_arp.specs.Learning.{Act};
ghost use Rattle.ethernet_arp.specs.Table.{Knows, host_of};
ghost use Rattle.ethernet_arp.specs.Taking.{IsTaught, ReportsTaken, SomeBytes, came_of};

use crate::arp::Arp;
use crate::mac::{BROADCAST, Mac};
use crate::packets::{ARP, DATAGRAM, REPLY, REQUEST, arp_frame, put_prefix};
use crate::sizes::{ARP_FRAME, LARGEST_FRAME, SMALLEST_FRAME};
use uip_wire::{Addr, get16};

/// The result of a frame.
#[derive(Clone, Copy, Debug, PartialEq, Eq)]
pub enum Taken {
    /// Nothing is sent, and nothing is for the node.
    Nothing,
    /// A reply of this many bytes was written.
    Reply(usize),
    /// A datagram for the node is in the frame.
    Datagram { at: usize, len: usize },
}

/// The kind of a frame.
#[derive(Clone, Copy, Debug, PartialEq, Eq)]
pub(crate) enum Sorted {
    /// It is not for this host, or has nothing for it.
    Nothing,
    /// A datagram.
    Datagram,
    /// A request for this host's hardware address.
    Asked(Addr, Mac),
    /// The reply to such a request of this host.
    Replied(Addr, Mac),
}

/// Takes a frame: learns from an ARP packet for this host, writes the reply to a request, and reports where a datagram is.
pub fn take(arp: &mut Arp, frame: &[u8], out: &mut [u8]) -> Taken
    requires least { SMALLEST_FRAME ≤ length frame.now }
    requires most { length frame.now ≤ LARGEST_FRAME }
    requires room { ARP_FRAME ≤ length out.old }
    ensures host { host_of arp.new ≡ host_of arp.old }
    ensures reported { ReportsTaken (host_of arp.old) frame.now result
        (frame_brings (host_of arp.old) frame.now) out.old out.new }
    ensures table { IsTaught (frame_brings (host_of arp.old) frame.now) arp.old arp.new }
    ensures knows { (acts : List Act) → Knows arp.old acts
        → Knows arp.new (acts ++ acts_among (frame_brings (host_of arp.old) frame.now)) }
{
    match sort(arp, frame) {
        Sorted::Nothing => Taken::Nothing,
        Sorted::Datagram => Taken::Datagram {
            at: SMALLEST_FRAME,
            len: frame.len() - SMALLEST_FRAME,
        },
        Sorted::Asked(addr, mac) => {
            arp.learn(addr, mac);
            put_prefix(out, &reply(arp, addr, mac));
            Taken::Reply(ARP_FRAME)
        }
        Sorted::Replied(addr, mac) => {
            arp.learn(addr, mac);
            Taken::Nothing
        }
    }
}

/// Returns the kind of a frame, for this host.
pub(crate) fn sort(arp: &Arp, frame: &[u8]) -> Sorted
    requires { SMALLEST_FRAME ≤ length frame.now }
    ensures decodes { frame_brings (host_of arp.now) frame.now ≡ came_of (drop 14 frame.now) result }
    ensures some { SomeBytes result (drop 14 frame.now) }
{
    if is_for(Mac::get(frame, 0), arp.mac) {
        return sort_payload(get16(frame, 12), &frame[SMALLEST_FRAME..], arp.own);
    }
    Sorted::Nothing
}

/// Returns whether a frame to this hardware address is for the host.
fn is_for(to: Mac, own: Mac) -> bool
    ensures { result ≡ (bytes_eq to.0 own.0 || bytes_eq to.0 broadcast) }
{
    to == own || to == BROADCAST
}

/// Returns the kind of a payload of this type, for the host at this address.
fn sort_payload(kind: u16, payload: &[u8], own: Addr) -> Sorted
    ensures decodes { (mac : List ℕ) → payload_brings (record { addr = own.0; mac = mac }) kind payload.now
        ≡ came_of payload.now result }
    ensures some { SomeBytes result payload.now }
{
    if holds_datagram(kind, payload) {
        return Sorted::Datagram;
    }
    if holds_packet(kind, payload, own) {
        return sort_packet(payload);
    }
    Sorted::Nothing
}

/// Returns whether the payload is a datagram.
fn holds_datagram(kind: u16, payload: &[u8]) -> bool
    ensures { result ≡ (is_datagram kind && nat_lt 0 (length payload.now)) }
{
    kind == DATAGRAM && !payload.is_empty()
}

/// Returns whether the payload is a sound ARP packet whose target is this host.
fn holds_packet(kind: u16, payload: &[u8], own: Addr) -> bool
    ensures { result ≡ (is_arp kind && is_arp_for own.0 payload.now) }
{
    kind == ARP && is_arp_for(payload, own)
}

/// Returns whether an ARP packet is sound and its target is the host at this address.
fn is_arp_for(packet: &[u8], own: Addr) -> bool
    ensures { result ≡ is_arp_for own.0 packet.now }
{
    packet.len() >= ARP_FRAME - SMALLEST_FRAME
        && get16(packet, 0) == 1
        && get16(packet, 2) == DATAGRAM
        && packet[4] == 6
        && packet[5] == 4
        && Addr::get(packet, 24) == own
}

/// Returns the kind of a sound packet.
fn sort_packet(packet: &[u8]) -> Sorted
    requires { ARP_FRAME - SMALLEST_FRAME ≤ length packet.now }
    ensures { (payload : List ℕ) → arp_brings (word_at packet.now 6) (sender_of packet.now)
        ≡ came_of payload result }
{
    let addr = Addr::get(packet, 14);
    let mac = Mac::get(packet, 8);
    let operation = get16(packet, 6);
    if operation == u16::from(REQUEST) {
        return Sorted::Asked(addr, mac);
    }
    if operation == u16::from(REPLY) {
        return Sorted::Replied(addr, mac);
    }
    Sorted::Nothing
}

/// Returns the reply of this host to a request from this pair.
pub(crate) fn reply(arp: &Arp, addr: Addr, mac: Mac) -> [u8; ARP_FRAME]
    ensures { result ≡ arp_reply (host_of arp.now) (record { addr = addr.0; mac = mac.0 }) }
{
    arp_frame(mac, REPLY, arp.own, arp.mac, mac, addr)
}
