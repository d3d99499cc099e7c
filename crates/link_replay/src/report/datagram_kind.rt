//! What a datagram is, as its receiver reads its bytes.

ghost use Rattle.std.specs.Prelude.{◌≡◌, ◌≤◌, List, length, option_map};
ghost use Rattle.uip_ipv4.specs.Prelude.{IsHeadOf};
ghost use Rattle.tcp_machine.specs.Prelude.{Sockets};
ghost use Rattle.tcp_segment.specs.Prelude.{segment_or_fate, PlainSegment};
ghost use Rattle.uip_node.specs.Prelude.{by_segment, event_of, Arrived};
ghost use Rattle.link_world.specs.World.{Side as PlainSide, numbered};
ghost use Rattle.link_replay.specs.Prelude.{OfDatagram, Matched, SideRepresents, kind_sent as kind_meant, segment_kind};

use crate::report::kind::Kind;
use crate::world::numbers::at_number;
use crate::world::sent::Sent;
use crate::world::side::Side;
use link_client::Client;
use link_world::Who;
use tcp_segment::check as check_segment;
use uip_ipv4::{IpHead, Proto, check as check_head};
use uip_wire::Addr;

/// Returns what a datagram is at the node with this address. A segment is read as its receiver reads it. What no receiver can
/// read is reported as an echo reply.
pub(crate) fn kind_of(addr: Addr, sides: &[Side], sent: &Sent) -> Kind
    ensures { OfDatagram addr sides.now sent.now (λ e. result ≡ kind_meant e.content) }
{
    match sent.who {
        Who::Pinger => Kind::EchoRequest,
        Who::FromClient(_) => read_at(addr, &sent.bytes),
        Who::FromNode(number) => match address_of(sides, number) {
            Some(own) => read_at(own, &sent.bytes),
            None => Kind::EchoReply,
        },
    }
}

/// Returns the address of a client.
fn addr_of(client: &Client) -> Addr
    ensures { result ≡ client.now.setup.addr }
{
    client.setup.addr
}

/// Returns the address of the client with this number, counted from 1.
fn address_of(sides: &[Side], number: u8) -> Option<Addr>
    ensures { (ss : List PlainSide) → Matched SideRepresents sides.now ss
        → result ≡ option_map (λ s. s.client.setup.addr) (numbered ss number) }
{
    let side = at_number(sides, usize::from(number))?;
    Some(addr_of(&side.client))
}

/// Returns what these bytes are at an address, if they are a segment there.
fn read_at(own: Addr, bytes: &[u8]) -> Kind
    ensures { (sockets : Sockets) (s : PlainSegment) → event_of own bytes.now ≡ Arrived sockets s → result ≡ segment_kind s }
{
    match check_head(bytes, own) {
        Ok(head) => match head.proto {
            Proto::Tcp => read_segment(bytes, &head),
            Proto::Icmp => Kind::EchoReply,
        },
        Err(_) => Kind::EchoReply,
    }
}

/// Returns what the bytes after a header are, if they are a segment.
fn read_segment(bytes: &[u8], head: &IpHead) -> Kind
    requires head { IsHeadOf head.now bytes.now }
    requires most { head.now.total ≤ length bytes.now }
    ensures { (sockets : Sockets) (s : PlainSegment)
        → by_segment head.now bytes.now (segment_or_fate head.now bytes.now) ≡ Arrived sockets s
        → result ≡ segment_kind s }
{
    match check_segment(bytes, head) {
        Ok(segment) => Kind::Segment {
            flags: segment.flags,
            seq: segment.seq.0,
            len: segment.text_len,
        },
        Err(_) => Kind::EchoReply,
    }
}
