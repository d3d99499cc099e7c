//! Updates the clients and the list of datagrams by what a call of the node did.

ghost use Rattle.std.specs.Prelude.{◌≡◌, ◌≤◌, List, OnOk, Option, Some, length};
ghost use Rattle.uip_wire.specs.declared.addr.Addr.{Addr as Address};
ghost use Rattle.link_replay.specs.Prelude.{Buries, PostsReply, ReportsStep, IsLink, link_of, CodeSent};

use crate::world::before_call::Before;
use crate::world::sent::Sent;
use crate::world::sent_list::post;
use crate::world::side::Side;
use crate::world::socket_pair::SocketPair;
use crate::world::sockets::{addressed, bury};
use app_events::App;
use link_world::Who;
use uip_edge::NoMemory;
use uip_node::Node;
use uip_wire::LARGEST_DATAGRAM;

/// Raises the epoch of the clients of a connection that became CLOSED, if one did.
fn bury_gone(sides: &mut Vec<Side>, gone: Option<SocketPair>) -> Result<(), NoMemory>
    ensures kept { (addr : Address) (sent : List CodeSent) → IsLink addr (link_of sides.old.items sent)
        → IsLink addr (link_of sides.new.items sent) }
    ensures few { length sides.new.items ≡ length sides.old.items }
    ensures buried { OnOk result ((sent : List CodeSent) → Buries gone (link_of sides.old.items sent) (link_of sides.new.items sent)) }
{
    if let Some(pair) = gone {
        bury(sides.as_mut_slice(), pair)?;
    }
    Ok(())
}

/// Appends the node's reply, to the client with these sockets or as an echo reply. What goes to no client has no bytes.
fn post_reply(
    sides: &[Side],
    sent: &mut Vec<Sent>,
    to: Option<SocketPair>,
    tick: u32,
    again: bool,
    datagram: &[u8],
) -> Result<(), NoMemory>
    requires few { length sides.now ≤ 64 }
    requires most { length datagram.now ≤ LARGEST_DATAGRAM }
    ensures kept { (addr : Address) → IsLink addr (link_of sides.now sent.old.items) → IsLink addr (link_of sides.now sent.new.items) }
    ensures posted { OnOk result
        (PostsReply to tick again datagram.now (link_of sides.now sent.old.items) (link_of sides.now sent.new.items)) }
{
    let number = match to {
        None => 0,
        Some(pair) => addressed(sides, pair),
    };
    let meant = if number == 0 && to.is_some() {
        &datagram[..0]
    } else {
        datagram
    };
    let bytes = meant.to_vec(*sent.allocator())?;
    post(sides, sent, Who::FromNode(number), tick, again, bytes)?;
    Ok(())
}

/// Updates by a call of the node: first the epoch of a connection that it lost, then the list by its reply.
pub(crate) fn tell<A: App>(
    node: &Node<A>,
    sides: &mut Vec<Side>,
    sent: &mut Vec<Sent>,
    before: &Before,
    answer: Option<usize>,
    to: Option<SocketPair>,
) -> Result<(), NoMemory>
    requires few { length sides.old.items ≤ 64 }
    ensures kept { (addr : Address) → IsLink addr (link_of sides.old.items sent.old.items)
        → IsLink addr (link_of sides.new.items sent.new.items) }
    ensures reported { OnOk result (ReportsStep A.App before.now node.now to answer (link_of sides.old.items sent.old.items)
        (link_of sides.new.items sent.new.items)) }
{
    let again = before.again(node);
    bury_gone(sides, before.gone(node))?;
    match answer {
        None => Ok(()),
        Some(_) => {
            post_reply(
                sides.as_slice(),
                sent,
                to,
                node.ticks(),
                again,
                node.packet(),
            )?;
            Ok(())
        }
    }
}
