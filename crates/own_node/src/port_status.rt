//! What the program reads of a connection.

ghost use Rattle.std.specs.Prelude.{◌≡◌, ◌<◌};
ghost use Rattle.uip_node.specs.Prelude.{connection_in};
ghost use Rattle.own_node.specs.Messages.{OfNodeWith, is_open_state, is_ready_at, is_ready_by, pending_at, pending_by, port_at, port_by};

use crate::holding::HoldsOwn;
use app_events::State;
use own_app::OwnApp;
use uip_node::Node;
use uip_wire::Port;

/// Returns whether the application of a connection may still send.
fn is_open_state(state: State) -> bool
    ensures { result ≡ is_open_state state }
{
    match state {
        State::Established | State::CloseWait => true,
        _ => false,
    }
}

/// Returns what a connection received and no message has answered.
fn pending_by(state: State, app: &OwnApp) -> &[u8]
    ensures { result.now ≡ pending_by state app.now }
{
    if is_open_state(state) && !app.overrun {
        return app.received.as_slice();
    }
    &[]
}

/// Returns whether a connection captures a message that is written now.
pub(crate) fn is_ready_by(state: State, len: u16, app: &OwnApp) -> bool
    ensures { result ≡ is_ready_by state len app.now }
{
    state == State::Established
        && len == 0
        && !app.overrun
        && !app.ended
        && app.at == app.sending.len()
}

/// Returns the port of a connection; 0 if its application may not send.
fn port_by(state: State, port: Port) -> u16
    ensures { result ≡ port_by state port.0 }
{
    if is_open_state(state) { port.0 } else { 0 }
}

/// Returns what the connection in a slot below 10 received and no message has answered, at most 128 bytes. It is empty if the connection is
/// not ESTABLISHED or CLOSE-WAIT (RFC 793, section 3.2), or is of another application.
pub fn pending<H: HoldsOwn>(node: &Node<H>, slot: usize) -> &[u8]
    requires { slot < 10 }
    ensures { OfNodeWith H.App node.now (λ n. result.now ≡ pending_at (H.seen (connection_in slot n))) }
{
    let conn = node.conn(slot);
    match conn.app.own() {
        Some(app) => pending_by(conn.state, app),
        None => &[],
    }
}

/// Returns whether the connection in a slot below 10 captures a message that is written now: it is ESTABLISHED, the peer has acknowledged
/// all, and the last message was not captured. It is false for a connection of another application.
pub fn is_ready<H: HoldsOwn>(node: &Node<H>, slot: usize) -> bool
    requires { slot < 10 }
    ensures { OfNodeWith H.App node.now (λ n. result ≡ is_ready_at (H.seen (connection_in slot n))) }
{
    let conn = node.conn(slot);
    match conn.app.own() {
        Some(app) => is_ready_by(conn.state, conn.len, app),
        None => false,
    }
}

/// Returns the port of the node at which the connection in a slot below 10 opened; 0 if it is not ESTABLISHED or CLOSE-WAIT, or is of
/// another application.
pub fn own_port<H: HoldsOwn>(node: &Node<H>, slot: usize) -> u16
    requires { slot < 10 }
    ensures { OfNodeWith H.App node.now (λ n. result ≡ port_at (H.seen (connection_in slot n))) }
{
    let conn = node.conn(slot);
    match conn.app.own() {
        Some(_app) => port_by(conn.state, conn.own_port),
        None => 0,
    }
}
