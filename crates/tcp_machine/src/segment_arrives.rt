//! A segment arrives (RFC 793, section 3.9, SEGMENT ARRIVES): the checks in order, then one function for each state.

ghost use Rattle.std.specs.Prelude.{◌≡◌, ◌+◌, ◌<◌, ◌≤◌, ◌&&◌, ◌==◌, if◌then◌else◌, not, nat_lt, true, length};
ghost use Rattle.uip_wire.specs.Prelude.{wrap};
ghost use Rattle.tcp_segment.specs.Prelude.{PlainSegment, has_ack};
ghost use Rattle.tcp_machine.specs.Prelude.{Connection, is_live, SameNumbers, SameSockets, connects, peer_closes};
ghost use Rattle.tcp_machine.specs.Prelude.{stays_established, in_established, by_state, on_segment, reported_end};
ghost use Rattle.tcp_machine.specs.Prelude.{occupies_sequence_space, IsSound, Refines, ConnRepresents, is_open, plain};

use crate::closing_states::{in_closing, in_fin_wait_1, in_fin_wait_2, in_last_ack};
use crate::delivery::{ack_received, deliver, is_open, receive_text};
use crate::step::Step;
use crate::transitions::{advance_rcv_nxt, clear_outstanding, enter, set_window};
use app_events::{App, Ending, State};
use tcp_segment::Segment;
use tcp_table::Conn;

/// Closes the connection, and notifies the application if it could still send.
pub(crate) fn drop_connection<A: App>(conn: &mut Conn<A>, shared: &mut A::Shared, how: Ending)
    requires { IsSound A.App (A.config shared.old) conn.old }
    ensures same { A.config shared.new ≡ A.config shared.old }
    ensures closed { conn.new.state ≡ State.Closed }
    ensures place { SameSockets conn.old conn.new }
    ensures same_numbers { SameNumbers conn.old conn.new }
    ensures numbers { (a : Connection) → ConnRepresents A.App (A.config shared.old) conn.old a
        → A.numbers shared.new ≡ reported_end (A.app_spec (A.config shared.old)) how a.state a.part (A.numbers shared.old) }
{
    if is_open(conn.state) {
        conn.app.ended(shared, how);
    }
    conn.state = State::Closed;
}

/// SYN-RECEIVED, if the SYN-ACK is acknowledged: delivers the text, and ignores a FIN.
fn connects<A: App>(conn: &mut Conn<A>, shared: &mut A::Shared, piece: &[u8]) -> Step
    requires state { conn.old.state ≡ State.SynRcvd }
    requires sound { IsSound A.App (A.config shared.old) conn.old }
    requires short { length piece.now ≤ 1500 }
    ensures { (s : PlainSegment) → Refines A.App (λ m a ns. connects m a ns (record s { text = piece.now }))
        conn.old shared.old conn.new shared.new result }
{
    conn.app.connected(shared, conn.own_port);
    deliver(&mut conn.app, shared, piece);
    clear_outstanding(conn);
    enter(conn, State::Established);
    advance_rcv_nxt(conn, piece.len() as u32);
    Step::Ask {
        fresh: !piece.is_empty(),
    }
}

/// ESTABLISHED, if the segment has a FIN.
#[tactic(auto, unfolding(crate::specs::OnSegment::peer_closes))]
fn peer_closes<A: App>(
    conn: &mut Conn<A>,
    shared: &mut A::Shared,
    seg: &Segment,
    piece: &[u8],
) -> Step
    requires state { conn.old.state ≡ State.Established }
    requires sound { IsSound A.App (A.config shared.old) conn.old }
    requires short { length piece.now ≤ 1500 }
    ensures { Refines A.App (λ m a ns. peer_closes m a ns (plain seg.now piece.now)) conn.old shared.old conn.new shared.new result }
{
    receive_text(conn, shared, seg.window, piece, piece.len() as u32 + 1);
    enter(conn, State::CloseWait);
    ask_if_idle(conn)
}

/// Asks the application for something new, if nothing is outstanding; else acknowledges.
fn ask_if_idle<A>(conn: &Conn<A>) -> Step
    ensures { result ≡ (if nat_lt 0 conn.now.len then Step.Ack else Step.Ask true) }
{
    if conn.len > 0 {
        Step::Ack
    } else {
        Step::Ask { fresh: true }
    }
}

/// ESTABLISHED, if the segment has no FIN.
#[tactic(auto, unfolding(crate::specs::OnSegment::stays_established))]
fn stays_established<A: App>(
    conn: &mut Conn<A>,
    shared: &mut A::Shared,
    seg: &Segment,
    piece: &[u8],
    acked: bool,
) -> Step
    requires state { conn.old.state ≡ State.Established }
    requires sound { IsSound A.App (A.config shared.old) conn.old }
    requires short { length piece.now ≤ 1500 }
    ensures { Refines A.App (λ m a ns. stays_established m acked a ns (plain seg.now piece.now))
        conn.old shared.old conn.new shared.new result }
{
    let count = piece.len() as u32;
    receive_text(conn, shared, seg.window, piece, count);
    let fresh = count > 0;
    if !acked && !fresh {
        return Step::Drop;
    }
    if conn.len > 0 {
        return Step::Ack;
    }
    Step::Ask { fresh }
}

/// ESTABLISHED, after the acknowledgement was reported.
#[tactic(auto, unfolding(crate::specs::OnSegment::in_established))]
fn in_established<A: App>(
    conn: &mut Conn<A>,
    shared: &mut A::Shared,
    seg: &Segment,
    piece: &[u8],
    acked: bool,
) -> Step
    requires state { conn.old.state ≡ State.Established }
    requires sound { IsSound A.App (A.config shared.old) conn.old }
    requires short { length piece.now ≤ 1500 }
    ensures { Refines A.App (λ m a ns. in_established m acked a ns (plain seg.now piece.now))
        conn.old shared.old conn.new shared.new result }
{
    if seg.has_fin() {
        peer_closes(conn, shared, seg, piece)
    } else {
        stays_established(conn, shared, seg, piece, acked)
    }
}

/// The row of ESTABLISHED: reports an acknowledgement to the application, then delivers.
fn established<A: App>(
    conn: &mut Conn<A>,
    shared: &mut A::Shared,
    seg: &Segment,
    piece: &[u8],
    acked: bool,
) -> Step
    requires state { conn.old.state ≡ State.Established }
    requires sound { IsSound A.App (A.config shared.old) conn.old }
    requires short { length piece.now ≤ 1500 }
    ensures { Refines A.App (λ m a ns. by_state m State.Established acked a ns (plain seg.now piece.now))
        conn.old shared.old conn.new shared.new result }
{
    if acked {
        ack_received(conn, shared);
        return in_established(conn, shared, seg, piece, true);
    }
    in_established(conn, shared, seg, piece, false)
}

/// The row of CLOSE-WAIT: text and FIN are ignored.
fn in_close_wait<A: App>(
    conn: &mut Conn<A>,
    shared: &mut A::Shared,
    seg: &Segment,
    acked: bool,
) -> Step
    requires state { conn.old.state ≡ State.CloseWait }
    requires sound { IsSound A.App (A.config shared.old) conn.old }
    ensures { (s : PlainSegment) → Refines A.App (λ m a ns. by_state m State.CloseWait acked a ns (record s { window = seg.now.window }))
        conn.old shared.old conn.new shared.new result }
{
    if acked {
        ack_received(conn, shared);
        set_window(conn, seg.window);
        return Step::Ask { fresh: false };
    }
    set_window(conn, seg.window);
    Step::Drop
}

/// Returns whether the segment occupies sequence space and does not start at RCV.NXT.
fn is_out_of_order<A>(conn: &Conn<A>, seg: &Segment, piece: &[u8]) -> bool
    ensures { result ≡ (occupies_sequence_space (plain seg.now piece.now) && not (seg.now.seq.0 == conn.now.rcv_nxt.0)) }
{
    (!piece.is_empty() || seg.has_syn() || seg.has_fin()) && seg.seq.0 != conn.rcv_nxt.0
}

/// Returns whether the segment acknowledges all that is outstanding.
fn is_acked<A>(conn: &Conn<A>, seg: &Segment) -> bool
    ensures { result ≡ (has_ack seg.now.flags && (nat_lt 0 conn.now.len && (seg.now.ack.0 == wrap (conn.now.snd_nxt.0 + conn.now.len)))) }
{
    seg.has_ack() && conn.len > 0 && seg.ack.0 == conn.snd_nxt.add(conn.len as u32).0
}

/// Takes the row of the connection's state. `acked`: the segment acknowledges all that is outstanding.
/// [add: state] A row: a function of its own, here or in `closing_states.rt` if the application has no more to send.
fn by_state<A: App>(
    conn: &mut Conn<A>,
    shared: &mut A::Shared,
    seg: &Segment,
    piece: &[u8],
    acked: bool,
) -> Step
    requires live { is_live conn.old.state ≡ true }
    requires sound { IsSound A.App (A.config shared.old) conn.old }
    requires short { length piece.now ≤ 1500 }
    ensures { Refines A.App (λ m a ns. by_state m a.state acked a ns (plain seg.now piece.now))
        conn.old shared.old conn.new shared.new result }
{
    match conn.state {
        State::Closed => Step::Drop,
        State::SynRcvd => {
            if acked {
                return connects(conn, shared, piece);
            }
            Step::Drop
        }
        State::Established => established(conn, shared, seg, piece, acked),
        State::CloseWait => in_close_wait(conn, shared, seg, acked),
        State::FinWait1 => in_fin_wait_1(conn, seg, piece, acked),
        State::FinWait2 => in_fin_wait_2(conn, seg, piece),
        State::Closing => in_closing(conn, acked),
        State::TimeWait => Step::Ack,
        State::LastAck => in_last_ack(conn, acked),
    }
}

/// Handles a segment of a connection that is not CLOSED. `piece` is the segment's text.
#[tactic(auto, unfolding(crate::specs::OnSegment::on_segment))]
pub fn on_segment<A: App>(
    conn: &mut Conn<A>,
    shared: &mut A::Shared,
    seg: &Segment,
    piece: &[u8],
) -> Step
    requires live { is_live conn.old.state ≡ true }
    requires sound { IsSound A.App (A.config shared.old) conn.old }
    requires short { length piece.now ≤ 1500 }
    ensures { Refines A.App (λ m a ns. on_segment m a ns (plain seg.now piece.now)) conn.old shared.old conn.new shared.new result }
{
    if seg.has_rst() {
        drop_connection(conn, shared, Ending::Reset);
        return Step::Drop;
    }
    if is_out_of_order(conn, seg, piece) {
        return Step::Ack;
    }
    let acked = is_acked(conn, seg);
    by_state(conn, shared, seg, piece, acked)
}
