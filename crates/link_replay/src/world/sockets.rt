//! The clients by their sockets at the server.

ghost use Rattle.std.specs.Prelude.{◌≡◌, ◌+◌, ◌≤◌, Any, List, OnErr, OnOk, Some, length};
ghost use Rattle.tcp_machine.specs.Prelude.{Connection, same_sockets};
ghost use Rattle.link_world.specs.World.{Side as PlainSide, addressed, retires};
ghost use Rattle.link_replay.specs.Prelude.{IsAtLast, OnlyEpoch, buried, sockets_for, Matched, pair_at, sockets_at, SideRepresents};

use crate::world::side::Side;
use crate::world::socket_pair::SocketPair;
use link_client::Client;
use uip_edge::NoMemory;

/// Returns whether a client has these sockets at the server.
fn has_sockets(client: &Client, pair: SocketPair) -> bool
    ensures { result ≡ same_sockets (sockets_at pair) (sockets_for client.now.setup) }
{
    let setup = &client.setup;
    pair.peer == setup.addr && pair.peer_port == setup.port && pair.own_port == setup.server_port
}

/// Raises the epoch of a client whose connection was lost.
fn bury_one(side: &mut Side, gone: SocketPair) -> Result<(), NoMemory>
    ensures kept { OnlyEpoch side.old side.new }
    ensures buried { OnOk result (side.new ≡ buried gone side.old) }
    ensures last { OnErr result (IsAtLast gone side.old) }
{
    if has_sockets(&side.client, gone) {
        side.epoch = side.epoch.checked_add(1).ok_or(NoMemory)?;
    }
    Ok(())
}

/// Raises the epoch of each client whose connection was lost. Fails with NoMemory if a client's epoch has no higher number.
pub(crate) fn bury(sides: &mut [Side], gone: SocketPair) -> Result<(), NoMemory>
    ensures kept { Matched OnlyEpoch sides.old sides.new }
    ensures represented { OnOk result ((ss : List PlainSide) (g : Connection) → pair_at g.sockets ≡ gone
        → Matched SideRepresents sides.old ss
        → Matched SideRepresents sides.new (retires (Some g) ss)) }
    ensures last { OnErr result (Any (IsAtLast gone) sides.old) }
{
    for side in sides.iter_mut() {
        bury_one(side, gone)?;
    }
    Ok(())
}

/// Returns the number of the client with these sockets, if the first of them has this number; 0 if there is none.
fn addressed_from(number: u8, sides: &[Side], pair: SocketPair) -> u8
    requires { number + length sides.now ≤ 255 }
    ensures { (ss : List PlainSide) → Matched SideRepresents sides.now ss → result ≡ addressed number (sockets_at pair) ss }
{
    match sides {
        [] => 0,
        [first, rest @ ..] => {
            if has_sockets(&first.client, pair) {
                number
            } else {
                addressed_from(number + 1, rest, pair)
            }
        }
    }
}

/// Returns the number of the client with these sockets at the server; 0 if there is none.
pub(crate) fn addressed(sides: &[Side], pair: SocketPair) -> u8
    requires { length sides.now ≤ 64 }
    ensures { (ss : List PlainSide) → Matched SideRepresents sides.now ss → result ≡ addressed 1 (sockets_at pair) ss }
{
    addressed_from(1, sides, pair)
}
