//! Output: writes the segment that a connection sends into the packet.

ghost use Rattle.std.specs.Prelude.{◌≡◌, ℕ, ◌+◌, ◌≤◌, List, IsSome, None, length, slice_range, take};
ghost use Rattle.app_events.specs.Prelude.{CanSupply, AppState, text_left};
ghost use Rattle.packet_buffer.specs.Prelude.{datagram_in};
ghost use Rattle.tcp_machine.specs.Prelude.{Connection, IsAnswer, StepFits, reset_for_no_connection};
ghost use Rattle.tcp_machine.specs.Prelude.{segment_of, IsSound, ConnRepresents, plain};
ghost use Rattle.tcp_machine.specs.declared.step.Step.TheVariants.{Drop};
ghost use Rattle.tcp_segment.specs.Prelude.{datagram_bytes, datagram_of};
ghost use Rattle.uip_node.specs.Edge.{datagram_to, sockets_of};
ghost use Rattle.uip_node.specs.Inner.{WritesText};
ghost use Rattle.uip_node.specs.Slots.{IsNamed};
ghost use Rattle.uip_node.specs.Spoken.{IsSpoken, headed};

use app_events::App;
use packet_buffer::Packet;
use tcp_machine::Step;
use tcp_segment::{ACK, FIN, Out, PSH, RST, SYN, Segment, put};
use tcp_table::Conn;
use uip_wire::{Addr, LARGEST_DATAGRAM, OWN_MSS};

/// The fields of a segment's header that its connection does not have.
#[derive(Clone, Copy, Debug, PartialEq, Eq)]
pub(crate) struct Heading {
    pub flags: u8,
    pub window: u16,
    pub mss: Option<u16>,
    /// The length of the text in bytes.
    pub len: u16,
}

/// Returns the heading of a segment without text, with the node's own window.
fn bare(flags: u8) -> Heading
    ensures { result ≡ record { flags = flags; window = OWN_MSS; mss = None; len = 0 } }
{
    Heading {
        flags,
        window: OWN_MSS,
        mss: None,
        len: 0,
    }
}

/// States that an address has four bytes.
fn has_four_bytes(addr: Addr)
    ensures { length addr.0 ≡ 4 }
{
    let [_first, _second, _third, _fourth] = addr.0;
}

/// Writes a segment around the text at offset 40, and returns the length of its datagram in bytes.
fn put_out(packet: &mut Packet, out: &Out) -> usize
    requires size { length packet.old.area ≡ LARGEST_DATAGRAM }
    requires len { out.now.len ≤ OWN_MSS }
    requires no_text { IsSome out.now.mss → out.now.len ≡ 0 }
    ensures size { length packet.new.area ≡ LARGEST_DATAGRAM }
    ensures length { result ≡ length (datagram_in packet.new) }
    ensures bytes { datagram_in packet.new ≡ datagram_bytes (datagram_of out.now (slice_range packet.old.area 40 (40 + out.now.len))) }
{
    has_four_bytes(out.source);
    has_four_bytes(out.target);
    put(packet, out);
    packet.bytes().len()
}

/// Writes a connection's segment around the text at offset 40, and returns the length of its datagram in bytes.
fn send<A>(packet: &mut Packet, conn: &Conn<A>, heading: Heading, own: Addr, id: u16) -> usize
    requires size { length packet.old.area ≡ LARGEST_DATAGRAM }
    requires len { heading.len ≤ OWN_MSS }
    requires no_text { IsSome heading.mss → heading.len ≡ 0 }
    ensures size { length packet.new.area ≡ LARGEST_DATAGRAM }
    ensures length { result ≡ length (datagram_in packet.new) }
    ensures bytes { (a : Connection) → IsNamed conn.now a
        → datagram_in packet.new ≡ datagram_bytes
        (datagram_to own a.sockets id (headed heading a (slice_range packet.old.area 40 (40 + heading.len)))) }
{
    let out = Out {
        source: own,
        target: conn.peer,
        from: conn.own_port,
        to: conn.peer_port,
        seq: conn.snd_nxt,
        ack: conn.rcv_nxt,
        flags: heading.flags,
        window: heading.window,
        mss: heading.mss,
        len: heading.len as usize,
        id,
    };
    put_out(packet, &out)
}

/// Lets the application generate its text at offset 40 of an area.
fn fill_at_40<A: App>(app: &A, shared: &A::Shared, area: &mut [u8], len: usize)
    requires fits { 40 + len ≤ length area.old }
    requires says { CanSupply A.app_spec A.represents app.now (A.config shared.now) len }
    ensures size { length area.new ≡ length area.old }
    ensures text { (p : AppState) → A.represents app.now (A.config shared.now) p
        → slice_range area.new 40 (40 + len) ≡ take len (text_left (A.app_spec (A.config shared.now)) p) }
{
    app.fill(shared, &mut area[40..40 + len]);
}

/// Lets the application generate the text that is outstanding, at offset 40.
fn fill_text<A: App>(packet: &mut Packet, conn: &Conn<A>, shared: &A::Shared)
    requires size { length packet.old.area ≡ LARGEST_DATAGRAM }
    requires says { CanSupply A.app_spec A.represents conn.now.app (A.config shared.now) conn.now.len }
    requires len { conn.now.len ≤ OWN_MSS }
    ensures size { length packet.new.area ≡ LARGEST_DATAGRAM }
    ensures text { (p : AppState) → A.represents conn.now.app (A.config shared.now) p
        → slice_range packet.new.area 40 (40 + conn.now.len) ≡ take conn.now.len (text_left (A.app_spec (A.config shared.now)) p) }
{
    fill_at_40(&conn.app, shared, packet.area_mut(), conn.len as usize);
}

/// Writes the segment of a connection's text.
fn send_text<A: App>(
    packet: &mut Packet,
    conn: &Conn<A>,
    shared: &A::Shared,
    own: Addr,
    id: u16,
) -> usize
    requires size { length packet.old.area ≡ LARGEST_DATAGRAM }
    requires says { CanSupply A.app_spec A.represents conn.now.app (A.config shared.now) conn.now.len }
    requires len { conn.now.len ≤ OWN_MSS }
    ensures size { length packet.new.area ≡ LARGEST_DATAGRAM }
    ensures length { result ≡ length (datagram_in packet.new) }
    ensures bytes { WritesText A.App (A.config shared.now) own id conn.now packet.new }
{
    fill_text(packet, conn, shared);
    let heading = Heading {
        len: conn.len,
        ..bare(ACK + PSH)
    };
    send(packet, conn, heading, own, id)
}

/// Writes the segment of a step into the packet and returns the length of its datagram in bytes, or `None` if nothing is sent.
pub(crate) fn speak<A: App>(
    packet: &mut Packet,
    conn: &Conn<A>,
    shared: &A::Shared,
    step: Step,
    own: Addr,
    id: u16,
) -> Option<usize>
    requires size { length packet.old.area ≡ LARGEST_DATAGRAM }
    requires sound { IsSound A.App (A.config shared.now) conn.now }
    requires fits { StepFits conn.now step }
    requires answer { IsAnswer step }
    ensures size { length packet.new.area ≡ LARGEST_DATAGRAM }
    ensures quiet { result ≡ None → packet.new ≡ packet.old }
    ensures spoken { (a : Connection) → ConnRepresents A.App (A.config shared.now) conn.now a → ((step ≡ Drop → ⊥) → IsNamed conn.now a)
        → IsSpoken own a.sockets id (segment_of (A.app_spec (A.config shared.now)) a step) result packet.new }
{
    match step {
        Step::Drop | Step::Ask { .. } => None,
        Step::Ack => Some(send(packet, conn, bare(ACK), own, id)),
        Step::SynAck { .. } => {
            let heading = Heading {
                mss: Some(OWN_MSS),
                ..bare(SYN + ACK)
            };
            Some(send(packet, conn, heading, own, id))
        }
        Step::Text { .. } => Some(send_text(packet, conn, shared, own, id)),
        Step::Fin { .. } => Some(send(packet, conn, bare(FIN + ACK), own, id)),
        Step::Reset => {
            let heading = Heading {
                window: 0,
                ..bare(RST + ACK)
            };
            Some(send(packet, conn, heading, own, id))
        }
    }
}

/// Writes the RST for a segment of no connection (RFC 793, section 3.4), and returns the length of its datagram in bytes.
pub(crate) fn put_reset(packet: &mut Packet, own: Addr, peer: Addr, seg: &Segment, id: u16) -> usize
    requires size { length packet.old.area ≡ LARGEST_DATAGRAM }
    ensures size { length packet.new.area ≡ LARGEST_DATAGRAM }
    ensures length { result ≡ length (datagram_in packet.new) }
    ensures bytes { (text : List ℕ)
        → datagram_in packet.new
        ≡ datagram_bytes (datagram_to own (sockets_of peer seg.now) id (reset_for_no_connection (plain seg.now text))) }
{
    let out = Out {
        source: own,
        target: peer,
        from: seg.to,
        to: seg.from,
        seq: seg.ack,
        ack: seg.seq.add(1),
        flags: RST + ACK,
        window: 0,
        mss: None,
        len: 0,
        id,
    };
    put_out(packet, &out)
}
