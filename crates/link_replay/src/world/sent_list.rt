//! Appends a datagram to the list.

ghost use Rattle.std.specs.Prelude.{◌≡◌, ◌≤◌, OnOk, List, length};
ghost use Rattle.std.specs.Option.{option_map_or};
ghost use Rattle.link_world.specs.World.{Side as PlainSide, epoch, epoch_of, numbered};
ghost use Rattle.link_replay.specs.Prelude.{Matched, KeepsLink, PostsBytes, SideRepresents, link_of};

use crate::world::faults::MOST_DATAGRAMS;
use crate::world::numbers::at_number;
use crate::world::sent::Sent;
use crate::world::side::Side;
use link_world::Who;
use uip_edge::NoMemory;
use uip_wire::LARGEST_DATAGRAM;

/// Returns the epoch of the client that a datagram concerns, by its sender; 0 if it concerns none.
fn epoch_of(sides: &[Side], who: Who) -> u32
    ensures { (ss : List PlainSide) → Matched SideRepresents sides.now ss → result ≡ epoch_of who ss }
{
    match who {
        Who::Pinger => 0,
        Who::FromClient(number) | Who::FromNode(number) => epoch_at(sides, number),
    }
}

/// Returns the epoch of the client with this number, counted from 1; 0 if there is none.
fn epoch_at(sides: &[Side], number: u8) -> u32
    ensures { (ss : List PlainSide) → Matched SideRepresents sides.now ss → result ≡ option_map_or epoch (numbered ss number) 0 }
{
    at_number(sides, usize::from(number)).map_or(0, |side| side.epoch)
}

/// Appends a datagram. Fails with NoMemory also if no number is left for it.
pub(crate) fn post(
    sides: &[Side],
    sent: &mut Vec<Sent>,
    who: Who,
    tick: u32,
    again: bool,
    bytes: Vec<u8>,
) -> Result<(), NoMemory>
    requires most { length bytes.items ≤ LARGEST_DATAGRAM }
    ensures kept { KeepsLink (link_of sides.now sent.old.items) (link_of sides.now sent.new.items) }
    ensures posted { OnOk result (PostsBytes who tick again bytes.items
        (link_of sides.now sent.old.items) (link_of sides.now sent.new.items)) }
{
    if sent.len() >= MOST_DATAGRAMS {
        return Err(NoMemory);
    }
    let epoch = epoch_of(sides, who);
    let datagram = Sent {
        who,
        tick,
        epoch,
        again,
        bytes,
    };
    sent.push(datagram)?;
    Ok(())
}
