//! What a delivery changes of a client.

ghost use Rattle.std.specs.Prelude.{◌≡◌, List};
ghost use Rattle.link_world.specs.World.{Sent as PlainSent, Side as PlainSide, marked, numbered};
ghost use Rattle.uip_wire.specs.declared.addr.Addr.{Addr as Address};
ghost use Rattle.link_replay.specs.Prelude.{Matched, sockets_for, pair_at, IsLink, SideRepresents, link_of, CodeSent, pair_at_side};
ghost use Rattle.link_replay.specs.Moving.{RecordsDelivery};

use crate::world::numbers::at_number;
use crate::world::side::Side;
use crate::world::socket_pair::SocketPair;
use link_client::Client;

impl Side {
    /// Records the delivery of a datagram of an epoch from or to the client: the first stale number is stored.
    fn see(&mut self, number: u32, epoch: u32)
        ensures represented { (s : PlainSide) (e : PlainSent) → SideRepresents self.old s → epoch ≡ e.epoch
            → SideRepresents self.new (marked s number e) }
        ensures kept { self.new ≡ record self.old { first_stale = self.new.first_stale } }
    {
        if self.first_stale.is_none() && epoch != self.epoch {
            self.first_stale = Some(number);
        }
    }
}

/// Returns the sockets of the server's connection with a client.
fn pair_at(client: &Client) -> SocketPair
    ensures { result ≡ pair_at (sockets_for client.now.setup) }
{
    SocketPair {
        peer: client.setup.addr,
        peer_port: client.setup.port,
        own_port: client.setup.server_port,
    }
}

/// Records the delivery of a datagram of an epoch from or to a client.
pub(crate) fn see(sides: &mut Vec<Side>, client: u8, number: u32, epoch: u32)
    ensures represented { RecordsDelivery client number epoch sides.old.items sides.new.items }
    ensures kept { (addr : Address) (sent : List CodeSent) → IsLink addr (link_of sides.old.items sent)
        → IsLink addr (link_of sides.new.items sent) }
{
    let place = usize::from(client);
    if place == 0 || place > sides.len() {
        return;
    }
    sides[place - 1].see(number, epoch);
}

/// Returns the sockets of the server's connection with the client of this number.
pub(crate) fn pair_of(sides: &[Side], client: u8) -> Option<SocketPair>
    ensures { (ss : List PlainSide) → Matched SideRepresents sides.now ss → result ≡ pair_at_side (numbered ss client) }
{
    let side = at_number(sides, usize::from(client))?;
    Some(pair_at(&side.client))
}
