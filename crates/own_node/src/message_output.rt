//! How the program writes a message.

ghost use Rattle.std.specs.Prelude.{◌≡◌, ◌<◌, ◌≤◌, ◌&&◌, false, length, nat_le, true};
ghost use Rattle.uip_node.specs.Prelude.{connection_in};
ghost use Rattle.own_app.specs.Prelude.{message_of};
ghost use Rattle.own_node.specs.Messages.{OfNodeWith, ReplacesNewestWith, WritesMessageWith, can_write_at, can_write_by, message_by};

use crate::holding::HoldsOwn;
use crate::port_status::is_ready_by;
use app_events::State;
use arrayvec::ArrayVec;
use own_app::{MESSAGE_ROOM, Message, OwnApp};
use uip_node::Node;

/// Returns whether a connection captures a message that answers this number of its bytes.
fn can_write_by(state: State, len: u16, app: &OwnApp, taken: usize) -> bool
    ensures { result ≡ can_write_by state len app.now taken }
{
    is_ready_by(state, len, app) && taken <= app.received.len()
}

/// Returns the next message of a connection.
fn next_message(app: &OwnApp, taken: usize, text: &[u8], last: bool) -> Message
    requires short { length text.now ≤ MESSAGE_ROOM }
    requires there { taken ≤ length app.now.received.items }
    ensures { message_of result ≡ message_by taken text.now last app.now }
{
    let mut area = ArrayVec::new();
    let _fits = area.try_extend_from_slice(text);
    // The length bounds `taken`, which then fits in 32 bits.
    let _ = app.received.len();
    Message {
        to: app.ticket,
        number: app.count,
        taken: taken as u32,
        last,
        text: area,
    }
}

/// Puts a message in the place of the newest.
fn put_message<H: HoldsOwn>(node: &mut Node<H>, message: Message)
    ensures replaces { ReplacesNewestWith H.App H.among (message_of message) node.old node.new }
    ensures kept { H.App.config node.new.shared ≡ H.App.config node.old.shared }
{
    H::put(&mut node.shared, message);
}

/// Writes a message to the connection in a slot below 10, at most 260 bytes. It answers `taken` of the received bytes, and the connection
/// closes after the last. Returns false and changes nothing if the connection is not ready, fewer bytes are there, or it is of another
/// application. The periodic call of the slot captures and sends it.
pub fn write<H: HoldsOwn>(
    node: &mut Node<H>,
    slot: usize,
    taken: usize,
    text: &[u8],
    last: bool,
) -> bool
    requires slot { slot < 10 }
    requires short { length text.now ≤ MESSAGE_ROOM }
    ensures can { OfNodeWith H.App node.old (λ n. result ≡ can_write_at taken (H.seen (connection_in slot n))) }
    ensures written { result ≡ true → WritesMessageWith H.App H.seen H.among slot taken text.now last node.old node.new }
    ensures refused { result ≡ false → node.new ≡ node.old }
{
    let conn = node.conn(slot);
    let Some(app) = conn.app.own() else {
        return false;
    };
    if !can_write_by(conn.state, conn.len, app, taken) {
        return false;
    }
    let message = next_message(app, taken, text, last);
    put_message(node, message);
    true
}
