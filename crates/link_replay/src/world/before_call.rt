//! What is recorded before a call of the node, which returns only the length of its reply, and compared after it.

ghost use Rattle.std.specs.Prelude.{◌≡◌, ◌≤◌, List, length, map};
ghost use Rattle.uip_node.specs.Prelude.{counters, HistoryEntry, AbstractNode, connection_in, step, Represents};
ghost use Rattle.link_replay.specs.Moving.{SinceBefore};
ghost use Rattle.link_replay.specs.Noting.{IsBefore, gone_pair, is_sent_again, lost, lost_at, owner, owner_in, resent};

use crate::world::socket_pair::SocketPair;
use app_events::App;
use arrayvec::ArrayVec;
use tcp_table::{Conn, Table};
use uip_node::Node;
use uip_node::counter::TCP_AGAIN;

/// What is recorded before a call of the node: the sockets of its connections, and its count of retransmissions.
#[derive(Drop)]
pub(crate) struct Before {
    pub pairs: ArrayVec<Option<SocketPair>, 10>,
    pub resent: u32,
}

/// Returns the sockets of a connection, if it is not CLOSED.
fn owner_of<A>(conn: &Conn<A>) -> Option<SocketPair>
    ensures { result ≡ owner_in conn.now }
{
    if conn.is_live() {
        Some(SocketPair {
            peer: conn.peer,
            peer_port: conn.peer_port,
            own_port: conn.own_port,
        })
    } else {
        None
    }
}

/// Returns the sockets of ten connections.
fn owners_of<A>(conns: &[Conn<A>]) -> ArrayVec<Option<SocketPair>, 10>
    requires { length conns.now ≤ 10 }
    ensures { result.items ≡ map owner_in conns.now }
{
    let mut pairs: ArrayVec<Option<SocketPair>, 10> = ArrayVec::new();
    for conn in conns {
        pairs.push(owner_of(conn));
    }
    pairs
}

/// Returns the sockets of the connections of a table.
fn owners_in<A: App>(table: &Table<A>) -> ArrayVec<Option<SocketPair>, 10>
    ensures { result.items ≡ map owner_in table.now.conns }
{
    owners_of(&table.conns)
}

/// Returns the count of retransmissions.
/// [add: counter] The length of the array.
fn resent_of(net: &[u32; 20]) -> u32
    ensures { (history : List HistoryEntry) → net.now ≡ counters history → result ≡ resent history }
{
    net[TCP_AGAIN]
}

/// Returns the sockets that had a slot, if its connection is another one now.
fn lost_at<A>(pair: Option<SocketPair>, conn: &Conn<A>) -> Option<SocketPair>
    ensures { result ≡ lost_at pair conn.now }
{
    match pair {
        Some(pair) if !conn.is_at(pair.peer, pair.peer_port, pair.own_port) => Some(pair),
        _ => None,
    }
}

/// Returns the first sockets that lost their slot.
fn first_lost<A>(pairs: &[Option<SocketPair>], conns: &[Conn<A>]) -> Option<SocketPair>
    ensures { result ≡ lost pairs.now conns.now }
{
    match pairs {
        [] => None,
        [pair, other_pairs @ ..] => match conns {
            [] => None,
            [conn, other_conns @ ..] => match lost_at(*pair, conn) {
                Some(pair) => Some(pair),
                None => first_lost(other_pairs, other_conns),
            },
        },
    }
}

/// Does the same for a table.
fn lost_in<A: App>(pairs: &[Option<SocketPair>], table: &Table<A>) -> Option<SocketPair>
    ensures { result ≡ lost pairs.now table.now.conns }
{
    first_lost(pairs, &table.conns)
}

impl Before {
    /// Records the sockets and the count of a node.
    pub(crate) fn of<A: App>(node: &Node<A>) -> Before
        ensures { (n : AbstractNode) → Represents A.App node.now n n.history → IsBefore result n }
    {
        Before {
            pairs: owners_in(&node.table),
            resent: resent_of(&node.net),
        }
    }

    /// Returns the sockets of the connection that became CLOSED since, if there is one.
    pub(crate) fn gone<A: App>(&self, node: &Node<A>) -> Option<SocketPair>
        ensures { SinceBefore A.App self.now node.now (λ step. result ≡ gone_pair step.gone) }
    {
        lost_in(&self.pairs, &node.table)
    }

    /// Returns whether the node has retransmitted since.
    pub(crate) fn again<A: App>(&self, node: &Node<A>) -> bool
        ensures { SinceBefore A.App self.now node.now (λ step. result ≡ is_sent_again step.sent) }
    {
        self.resent != resent_of(&node.net)
    }

    /// Returns the sockets of the connection that was in a slot, if it was not CLOSED.
    pub(crate) fn pair(&self, slot: usize) -> Option<SocketPair>
        ensures { (n : AbstractNode) → IsBefore self.now n → result ≡ owner (connection_in slot n) }
    {
        self.pairs.get(slot).copied().flatten()
    }
}
