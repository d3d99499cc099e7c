//! Transitions: how the sequence numbers, the window, the timer and the state change.

ghost use Rattle.std.specs.Prelude.{◌≡◌, ◌<◌, ◌≤◌, true, false};
ghost use Rattle.tcp_machine.specs.Prelude.{Connection, is_resting, SameNumbers, rests, takes, in_state, with_window};
ghost use Rattle.tcp_machine.specs.Prelude.{limit_of, IsLike, IsRested, KeepsAll, KeepsAllButMss, KeepsAllButTimer};

use app_events::State;
use rexmit_timer::Timer;
use tcp_table::Conn;

/// Removes what was outstanding, which is acknowledged: advances SND.UNA over it and stops the timer.
pub(crate) fn clear_outstanding<A>(conn: &mut Conn<A>)
    ensures rested { IsRested conn.old conn.new }
    ensures like { (a : Connection) → IsLike conn.old a → IsLike conn.new (rests a) }
{
    conn.snd_nxt = conn.snd_nxt.add(conn.len as u32);
    conn.len = 0;
    conn.timer = Timer::rest();
}

/// Advances RCV.NXT by `count`.
pub(crate) fn advance_rcv_nxt<A>(conn: &mut Conn<A>, count: u32)
    ensures kept { KeepsAll conn.old conn.new }
    ensures state { conn.new.state ≡ conn.old.state }
    ensures like { (a : Connection) → IsLike conn.old a → IsLike conn.new (takes count a) }
{
    conn.rcv_nxt = conn.rcv_nxt.add(count);
}

/// Enters a state. The timer of what is outstanding is unchanged.
/// [add: state] How the state is entered.
pub(crate) fn enter<A>(conn: &mut Conn<A>, state: State)
    requires limit { 0 < conn.old.len → limit_of state ≡ limit_of conn.old.state }
    requires busy { is_resting conn.old.state ≡ false }
    ensures kept { KeepsAll conn.old conn.new }
    ensures state { conn.new.state ≡ state }
    ensures like { (a : Connection) → conn.old.state ≡ a.state → (is_resting state ≡ true → a.age ≡ 0) → IsLike conn.old a
        → IsLike conn.new (in_state state a) }
{
    conn.state = state;
}

/// Enters TIME-WAIT, and starts the count of its ticks.
pub(crate) fn begin_time_wait<A>(conn: &mut Conn<A>)
    requires { conn.old.len ≡ 0 }
    ensures kept { KeepsAllButTimer conn.old conn.new }
    ensures state { conn.new.state ≡ State.TimeWait }
    ensures count { conn.new.timer.count ≡ 0 }
    ensures tries { conn.new.timer.tries ≡ 0 }
    ensures like { (a : Connection) → IsLike conn.old a → IsLike conn.new (record (in_state State.TimeWait a) { age = 0 }) }
{
    conn.timer = Timer::rest();
    conn.state = State::TimeWait;
}

/// Bounds the next text by the peer's window. A window of 0 counts as an open one, as in uIP.
pub(crate) fn set_window<A>(conn: &mut Conn<A>, window: u16)
    ensures kept { KeepsAllButMss conn.old conn.new }
    ensures low { 1 ≤ conn.old.initial_mss → 1 ≤ conn.new.mss }
    ensures high { conn.new.mss ≤ conn.old.initial_mss }
    ensures like { (a : Connection) → IsLike conn.old a → IsLike conn.new (with_window window a) }
{
    conn.mss = if window == 0 {
        conn.initial_mss
    } else {
        conn.initial_mss.min(window)
    };
}

/// Makes `len` sequence numbers outstanding for the first time, and starts the timer.
pub(crate) fn send<A>(conn: &mut Conn<A>, state: State, len: u16)
    requires some { 0 < len }
    requires limit { limit_of state ≡ 8 }
    ensures kept { KeepsAllButTimer conn.old (record conn.new { len = conn.old.len }) }
    ensures same_numbers { SameNumbers conn.old conn.new }
    ensures state { conn.new.state ≡ state }
    ensures len { conn.new.len ≡ len }
    ensures some { 0 < conn.new.len }
    ensures count { conn.new.timer.count ≡ 3 }
    ensures tries { conn.new.timer.tries ≡ 0 }
    ensures like { (a : Connection) → IsLike conn.old a → IsLike conn.new (record (in_state state a) { len = len; age = 0 }) }
{
    conn.state = state;
    conn.len = len;
    conn.timer = Timer::fresh();
}
