//! The states after an own FIN, in which the application has nothing more to send (RFC 793, section 3.9).
//! [add: state] A function for a state after an own FIN.

ghost use Rattle.std.specs.Prelude.{◌≡◌, ◌≤◌, Bool, true, false, length};
ghost use Rattle.tcp_segment.specs.Prelude.{PlainSegment};
ghost use Rattle.app_events.specs.Prelude.{AppSpec};
ghost use Rattle.tcp_machine.specs.Prelude.{is_live, fin_acked, by_state, HasSoundNumbers, plain, RefinesAlone};

use crate::step::Step;
use crate::transitions::{advance_rcv_nxt, begin_time_wait, clear_outstanding, enter};
use app_events::State;
use tcp_segment::Segment;
use tcp_table::Conn;

/// FIN-WAIT-1, if the segment acknowledges the own FIN: accepts text and FIN.
#[tactic(auto, unfolding(crate::specs::OnSegment::fin_acked))]
fn fin_acked<A>(conn: &mut Conn<A>, seg: &Segment, piece: &[u8]) -> Step
    requires state { conn.old.state ≡ State.FinWait1 }
    requires sound { HasSoundNumbers conn.old }
    requires short { length piece.now ≤ 1500 }
    ensures sound { HasSoundNumbers conn.new }
    ensures takes { RefinesAlone (λ a ns. fin_acked a ns (plain seg.now piece.now)) conn.old conn.new result }
{
    clear_outstanding(conn);
    let count = piece.len() as u32;
    if seg.has_fin() {
        advance_rcv_nxt(conn, count + 1);
        enter(conn, State::TimeWait);
        return Step::Ack;
    }
    advance_rcv_nxt(conn, count);
    enter(conn, State::FinWait2);
    Step::Drop
}

/// FIN-WAIT-1, if the own FIN is still outstanding: accepts text and FIN.
#[tactic(auto, unfolding(crate::specs::OnSegment::fin_waits))]
fn fin_waits<A>(conn: &mut Conn<A>, seg: &Segment, piece: &[u8]) -> Step
    requires state { conn.old.state ≡ State.FinWait1 }
    requires sound { HasSoundNumbers conn.old }
    requires short { length piece.now ≤ 1500 }
    ensures sound { HasSoundNumbers conn.new }
    ensures takes { (m : AppSpec)
        → RefinesAlone (λ a ns. by_state m State.FinWait1 false a ns (plain seg.now piece.now)) conn.old conn.new result }
{
    let count = piece.len() as u32;
    if seg.has_fin() {
        advance_rcv_nxt(conn, count + 1);
        enter(conn, State::Closing);
        return Step::Ack;
    }
    if count > 0 {
        advance_rcv_nxt(conn, count);
        return Step::Ack;
    }
    Step::Drop
}

/// FIN-WAIT-2: accepts and discards text; a FIN begins TIME-WAIT.
#[tactic(auto, unfolding(crate::specs::OnSegment::fin_waits))]
pub(crate) fn in_fin_wait_2<A>(conn: &mut Conn<A>, seg: &Segment, piece: &[u8]) -> Step
    requires state { conn.old.state ≡ State.FinWait2 }
    requires sound { HasSoundNumbers conn.old }
    requires short { length piece.now ≤ 1500 }
    ensures sound { HasSoundNumbers conn.new }
    ensures takes { (m : AppSpec) (acked : Bool)
        → RefinesAlone (λ a ns. by_state m State.FinWait2 acked a ns (plain seg.now piece.now)) conn.old conn.new result }
{
    let count = piece.len() as u32;
    if seg.has_fin() {
        advance_rcv_nxt(conn, count + 1);
        begin_time_wait(conn);
        return Step::Ack;
    }
    if count > 0 {
        advance_rcv_nxt(conn, count);
        return Step::Ack;
    }
    Step::Drop
}

/// The row of FIN-WAIT-1.
pub(crate) fn in_fin_wait_1<A>(conn: &mut Conn<A>, seg: &Segment, piece: &[u8], acked: bool) -> Step
    requires state { conn.old.state ≡ State.FinWait1 }
    requires sound { HasSoundNumbers conn.old }
    requires short { length piece.now ≤ 1500 }
    ensures sound { HasSoundNumbers conn.new }
    ensures takes { (m : AppSpec)
        → RefinesAlone (λ a ns. by_state m State.FinWait1 acked a ns (plain seg.now piece.now)) conn.old conn.new result }
{
    if acked {
        fin_acked(conn, seg, piece)
    } else {
        fin_waits(conn, seg, piece)
    }
}

/// The row of CLOSING: if the own FIN is acknowledged, TIME-WAIT begins.
pub(crate) fn in_closing<A>(conn: &mut Conn<A>, acked: bool) -> Step
    requires state { conn.old.state ≡ State.Closing }
    requires sound { HasSoundNumbers conn.old }
    ensures sound { HasSoundNumbers conn.new }
    ensures takes { (m : AppSpec) (s : PlainSegment)
        → RefinesAlone (λ a ns. by_state m State.Closing acked a ns s) conn.old conn.new result }
{
    if acked {
        clear_outstanding(conn);
        enter(conn, State::TimeWait);
    }
    Step::Drop
}

/// The row of LAST-ACK: if the own FIN is acknowledged, the connection is CLOSED.
pub(crate) fn in_last_ack<A>(conn: &mut Conn<A>, acked: bool) -> Step
    requires state { conn.old.state ≡ State.LastAck }
    requires sound { HasSoundNumbers conn.old }
    ensures sound { is_live conn.new.state ≡ true → HasSoundNumbers conn.new }
    ensures takes { (m : AppSpec) (s : PlainSegment)
        → RefinesAlone (λ a ns. by_state m State.LastAck acked a ns s) conn.old conn.new result }
{
    if acked {
        clear_outstanding(conn);
        conn.state = State::Closed;
    }
    Step::Drop
}
