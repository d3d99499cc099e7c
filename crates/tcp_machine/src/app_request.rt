//! Asks the application what to send, in ESTABLISHED and CLOSE-WAIT with nothing outstanding.

ghost use Rattle.std.specs.Prelude.{◌≡◌, false};
ghost use Rattle.app_events.specs.Prelude.{AppState};
ghost use Rattle.app_events.specs.declared.now.Now.{Now};
ghost use Rattle.tcp_machine.specs.Prelude.{ask, ask_prepared, does_as_wanted, idles, prepared, after_own_fin, Connection, CanBeAsked};
ghost use Rattle.tcp_machine.specs.Prelude.{IsAnswer, SameNumbers, SameSockets, StepFits, IsSound, Refines, ConnRepresents};

use crate::step::Step;
use crate::transitions::send;
use app_events::{App, Now, State, Want};
use tcp_table::Conn;

/// Returns the state that follows the sending of an own FIN.
/// [add: state] The state that an own FIN leads to.
fn after_own_fin(state: State) -> State
    ensures { result ≡ after_own_fin state }
{
    match state {
        State::CloseWait => State::LastAck,
        _ => State::FinWait1,
    }
}

/// Lets the application take a capture, if the text that comes next needs one.
pub fn prepare<A: App>(conn: &mut Conn<A>, shared: &A::Shared, now: &Now)
    requires asked { CanBeAsked conn.old }
    requires sound { IsSound A.App (A.config shared.now) conn.old }
    ensures asked { CanBeAsked conn.new }
    ensures sound { IsSound A.App (A.config shared.now) conn.new }
    ensures place { SameSockets conn.old conn.new }
    ensures same_numbers { SameNumbers conn.old conn.new }
    ensures conn { (a : Connection) → ConnRepresents A.App (A.config shared.now) conn.old a
        → ConnRepresents A.App (A.config shared.now) conn.new
        (prepared (A.app_spec (A.config shared.now)) now.now a (A.numbers shared.now)) }
{
    conn.app.prepare(shared, now);
}

/// The application has nothing to send. If the peer has sent its FIN, nothing more can be received either, so the connection is reset.
#[tactic(auto, unfolding(crate::specs::Ask::idles))]
fn idle<A: App>(conn: &mut Conn<A>, shared: &A::Shared, fresh: bool) -> Step
    requires asked { CanBeAsked conn.old }
    requires sound { IsSound A.App (A.config shared.now) conn.old }
    ensures same_numbers { SameNumbers conn.old conn.new }
    ensures answer { IsAnswer result }
    ensures takes { Refines A.App (λ m a ns. idles fresh a ns) conn.old shared.now conn.new shared.now result }
    ensures fits { StepFits conn.new result }
{
    if conn.state == State::CloseWait {
        conn.state = State::Closed;
        return Step::Reset;
    }
    if fresh { Step::Ack } else { Step::Drop }
}

/// Does what the application requested.
fn do_as_wanted<A: App>(conn: &mut Conn<A>, shared: &A::Shared, want: Want, fresh: bool) -> Step
    requires asked { CanBeAsked conn.old }
    requires sound { IsSound A.App (A.config shared.now) conn.old }
    requires want { (p : AppState) → A.represents conn.old.app (A.config shared.now) p
        → want ≡ (A.app_spec (A.config shared.now)).want (A.numbers shared.now) p }
    ensures same_numbers { SameNumbers conn.old conn.new }
    ensures answer { IsAnswer result }
    ensures takes { Refines A.App (λ m a ns. does_as_wanted want fresh a ns) conn.old shared.now conn.new shared.now result }
    ensures fits { StepFits conn.new result }
{
    match want {
        Want::Abort => {
            conn.state = State::Closed;
            Step::Reset
        }
        Want::Close => {
            let state = after_own_fin(conn.state);
            send(conn, state, 1);
            Step::Fin { again: false }
        }
        Want::Send(count) => {
            let state = conn.state;
            let len = count.min(conn.mss as usize) as u16;
            send(conn, state, len);
            Step::Text { again: false }
        }
        Want::Nothing => idle(conn, shared, fresh),
    }
}

/// Returns whether the application may need a capture before it is asked. If not, `prepare` changes nothing for any `Now`.
pub fn is_due<A: App>(conn: &Conn<A>, shared: &A::Shared) -> bool
    requires asked { CanBeAsked conn.now }
    requires sound { IsSound A.App (A.config shared.now) conn.now }
    ensures not_due { result ≡ false → (a : Connection) (now : Now) → ConnRepresents A.App (A.config shared.now) conn.now a
        → prepared (A.app_spec (A.config shared.now)) now a (A.numbers shared.now) ≡ a }
{
    conn.app.is_due(shared)
}

/// Asks the application, which has taken the capture that it needs, what it requests, and does it. `fresh`: new text was accepted,
/// which must be acknowledged.
pub fn ask_prepared<A: App>(conn: &mut Conn<A>, shared: &A::Shared, fresh: bool) -> Step
    requires asked { CanBeAsked conn.old }
    requires sound { IsSound A.App (A.config shared.now) conn.old }
    ensures same_numbers { SameNumbers conn.old conn.new }
    ensures answer { IsAnswer result }
    ensures takes { Refines A.App (λ m a ns. ask_prepared m fresh a ns) conn.old shared.now conn.new shared.now result }
    ensures fits { StepFits conn.new result }
{
    let want = conn.app.want(shared);
    do_as_wanted(conn, shared, want, fresh)
}

/// Lets the application take a capture, if it needs one, then asks what it requests, and does it. `fresh`: new text was accepted, which
/// must be acknowledged.
pub fn ask<A: App>(conn: &mut Conn<A>, shared: &A::Shared, now: &Now, fresh: bool) -> Step
    requires asked { CanBeAsked conn.old }
    requires sound { IsSound A.App (A.config shared.now) conn.old }
    ensures same_numbers { SameNumbers conn.old conn.new }
    ensures answer { IsAnswer result }
    ensures takes { Refines A.App (λ m a ns. ask m now.now fresh a ns) conn.old shared.now conn.new shared.now result }
    ensures fits { StepFits conn.new result }
{
    prepare(conn, shared, now);
    ask_prepared(conn, shared, fresh)
}
