//! The periodic call of a connection: timeouts and polls (RFC 793, section 3.9, TIMEOUTS).

ghost use Rattle.std.specs.Prelude.{◌≡◌, ℕ, ◌<◌, true, false, List};
ghost use Rattle.tcp_machine.specs.Connection.{Connection, is_live, is_resting};
ghost use Rattle.tcp_machine.specs.Fits.{Rests, SameNumbers, SameSockets, StepFits};
ghost use Rattle.tcp_machine.specs.OnTick.{limit_of, outstanding, waits_for_ack, rests_on, polls, ticks_established, on_tick};
ghost use Rattle.tcp_machine.specs.Sound.{HasSoundNumbers, IsSound};
ghost use Rattle.tcp_machine.specs.Refines.{Refines};
ghost use Rattle.tcp_machine.specs.Represents.{MeetsAlone, NumbersRepresent, is_open};

use crate::segment_arrives::drop_connection;
use crate::step::Step;
use app_events::{App, Ending, State};
use rexmit_timer::{Beat, SYN_ACK_LIMIT, TEXT_LIMIT};
use tcp_table::Conn;

/// The length of FIN-WAIT-2 and TIME-WAIT, in ticks.
pub const REST_TIME: u8 = 120;

/// Returns how many times what is outstanding is retransmitted.
fn limit_of(state: State) -> u8
    ensures { result ≡ limit_of state }
{
    match state {
        State::SynRcvd => SYN_ACK_LIMIT,
        _ => TEXT_LIMIT,
    }
}

/// Returns what is outstanding, as a retransmission.
fn outstanding(state: State) -> Step
    ensures { result ≡ outstanding true state }
{
    match state {
        State::SynRcvd => Step::SynAck { again: true },
        State::Established | State::CloseWait => Step::Text { again: true },
        State::FinWait1 | State::Closing | State::LastAck => Step::Fin { again: true },
        State::Closed | State::FinWait2 | State::TimeWait => Step::Drop,
    }
}

/// A tick of FIN-WAIT-2 or TIME-WAIT: the connection is CLOSED after `REST_TIME` ticks.
#[tactic(auto, unfolding(crate::specs::OnTick::rests_on))]
fn rests_on<A>(conn: &mut Conn<A>) -> Step
    requires resting { is_resting conn.old.state ≡ true }
    requires sound { HasSoundNumbers conn.old }
    requires idle { conn.old.len ≡ 0 }
    ensures sound { is_live conn.new.state ≡ true → HasSoundNumbers conn.new }
    ensures closed_to_it { is_open conn.new.state ≡ false }
    ensures place { SameSockets conn.old conn.new }
    ensures same_numbers { SameNumbers conn.old conn.new }
    ensures fits { StepFits conn.new result }
    ensures meets { (a : Connection) (ns : List ℕ) → NumbersRepresent conn.old a → MeetsAlone conn.new ns result (rests_on a ns) }
{
    if conn.timer.count == REST_TIME - 1 {
        conn.state = State::Closed;
        return Step::Drop;
    }
    conn.timer.count += 1;
    Step::Drop
}

/// ESTABLISHED with nothing outstanding: polls the application, which is then asked.
fn polls<A: App>(conn: &mut Conn<A>, shared: &mut A::Shared) -> Step
    requires state { conn.old.state ≡ State.Established }
    requires idle { conn.old.len ≡ 0 }
    requires sound { IsSound A.App (A.config shared.old) conn.old }
    ensures same_numbers { SameNumbers conn.old conn.new }
    ensures takes { Refines A.App polls conn.old shared.old conn.new shared.new result }
{
    conn.app.polled(shared);
    Step::Ask { fresh: false }
}

/// Counts a tick for what is outstanding: waits, retransmits, or resets the connection.
fn waits_for_ack<A: App>(conn: &mut Conn<A>, shared: &mut A::Shared) -> Step
    requires live { is_live conn.old.state ≡ true }
    requires out { 0 < conn.old.len }
    requires sound { IsSound A.App (A.config shared.old) conn.old }
    ensures same_numbers { SameNumbers conn.old conn.new }
    ensures takes { Refines A.App waits_for_ack conn.old shared.old conn.new shared.new result }
{
    match conn.timer.tick(limit_of(conn.state)) {
        Beat::Wait => Step::Drop,
        Beat::Again => outstanding(conn.state),
        Beat::GiveUp => {
            drop_connection(conn, shared, Ending::TimedOut);
            Step::Reset
        }
    }
}

/// A tick of ESTABLISHED.
#[tactic(auto, unfolding(crate::specs::OnTick::ticks_established))]
fn ticks_established<A: App>(conn: &mut Conn<A>, shared: &mut A::Shared) -> Step
    requires state { conn.old.state ≡ State.Established }
    requires sound { IsSound A.App (A.config shared.old) conn.old }
    ensures same_numbers { SameNumbers conn.old conn.new }
    ensures takes { Refines A.App ticks_established conn.old shared.old conn.new shared.new result }
{
    if conn.len > 0 {
        waits_for_ack(conn, shared)
    } else {
        polls(conn, shared)
    }
}

/// Makes the periodic call of a connection. In CLOSE-WAIT something must be outstanding.
/// [add: state] An arm for the periodic call.
pub fn on_tick<A: App>(conn: &mut Conn<A>, shared: &mut A::Shared) -> Step
    requires sound { IsSound A.App (A.config shared.old) conn.old }
    requires busy { Rests conn.old }
    ensures same_numbers { SameNumbers conn.old conn.new }
    ensures takes { Refines A.App on_tick conn.old shared.old conn.new shared.new result }
{
    match conn.state {
        State::Closed => Step::Drop,
        State::Established => ticks_established(conn, shared),
        State::FinWait2 | State::TimeWait => rests_on(conn),
        State::SynRcvd | State::CloseWait | State::FinWait1 | State::Closing | State::LastAck => {
            waits_for_ack(conn, shared)
        }
    }
}
