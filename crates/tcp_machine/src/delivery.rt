//! Delivers acknowledgements and text to the application, in the states in which it may send.

ghost use Rattle.std.specs.Prelude.{◌≡◌, true};
ghost use Rattle.app_events.specs.Prelude.{AppState, IsRepresented};
ghost use Rattle.tcp_machine.specs.Prelude.{Connection, SameSockets, delivers_text, rests, takes, with_part};
ghost use Rattle.tcp_machine.specs.Prelude.{with_window, IsSound, ConnRepresents, is_open};

use crate::transitions::{advance_rcv_nxt, clear_outstanding, set_window};
use app_events::{App, State};
use tcp_table::Conn;

/// Returns whether the application may still send: in ESTABLISHED and CLOSE-WAIT.
pub(crate) fn is_open(state: State) -> bool
    ensures { result ≡ is_open state }
{
    matches!(state, State::Established | State::CloseWait)
}

/// Delivers text to the application, if there is any.
pub(crate) fn deliver<A: App>(app: &mut A, shared: &mut A::Shared, piece: &[u8])
    requires { IsRepresented A.represents app.old (A.config shared.old) }
    ensures same { A.config shared.new ≡ A.config shared.old }
    ensures part { (p : AppState) → A.represents app.old (A.config shared.old) p
        → A.represents app.new (A.config shared.old) (delivers_text (A.app_spec (A.config shared.old))
        (A.numbers shared.old) p piece.now).part }
    ensures numbers { (p : AppState) → A.represents app.old (A.config shared.old) p
        → A.numbers shared.new ≡ (delivers_text (A.app_spec (A.config shared.old)) (A.numbers shared.old) p piece.now).numbers }
{
    if !piece.is_empty() {
        app.newdata(shared, piece);
    }
}

/// Reports to the application that all outstanding text is acknowledged, and removes it.
pub(crate) fn ack_received<A: App>(conn: &mut Conn<A>, shared: &mut A::Shared)
    requires open_to_it { is_open conn.old.state ≡ true }
    requires sound { IsSound A.App (A.config shared.old) conn.old }
    ensures same { A.config shared.new ≡ A.config shared.old }
    ensures state { conn.new.state ≡ conn.old.state }
    ensures len { conn.new.len ≡ 0 }
    ensures place { SameSockets conn.old conn.new }
    ensures sound { IsSound A.App (A.config shared.old) conn.new }
    ensures conn { (a : Connection) → ConnRepresents A.App (A.config shared.old) conn.old a
        → ConnRepresents A.App (A.config shared.old) conn.new (with_part
        ((A.app_spec (A.config shared.old)).acked (A.numbers shared.old) a.part a.len).part (rests a)) }
    ensures numbers { (a : Connection) → ConnRepresents A.App (A.config shared.old) conn.old a
        → A.numbers shared.new ≡ ((A.app_spec (A.config shared.old)).acked (A.numbers shared.old) a.part a.len).numbers }
{
    conn.app.acked(shared, conn.len as usize);
    clear_outstanding(conn);
}

/// Delivers text, advances RCV.NXT by `count`, and takes the peer's window.
pub(crate) fn receive_text<A: App>(
    conn: &mut Conn<A>,
    shared: &mut A::Shared,
    window: u16,
    piece: &[u8],
    count: u32,
)
    requires open_to_it { is_open conn.old.state ≡ true }
    requires sound { IsSound A.App (A.config shared.old) conn.old }
    ensures same { A.config shared.new ≡ A.config shared.old }
    ensures state { conn.new.state ≡ conn.old.state }
    ensures len { conn.new.len ≡ conn.old.len }
    ensures timer { conn.new.timer ≡ conn.old.timer }
    ensures place { SameSockets conn.old conn.new }
    ensures sound { IsSound A.App (A.config shared.old) conn.new }
    ensures conn { (a : Connection) → ConnRepresents A.App (A.config shared.old) conn.old a
        → ConnRepresents A.App (A.config shared.old) conn.new (with_window window
        (with_part (delivers_text (A.app_spec (A.config shared.old)) (A.numbers shared.old) a.part piece.now).part (takes count a))) }
    ensures numbers { (a : Connection) → ConnRepresents A.App (A.config shared.old) conn.old a
        → A.numbers shared.new ≡ (delivers_text (A.app_spec (A.config shared.old)) (A.numbers shared.old) a.part piece.now).numbers }
{
    deliver(&mut conn.app, shared, piece);
    advance_rcv_nxt(conn, count);
    set_window(conn, window);
}
