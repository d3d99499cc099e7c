//! A client takes a step, and what it sends is appended to the list.

ghost use Rattle.std.specs.Prelude.{◌≡◌, ◌≤◌, ℕ, List, OnOk, Option, Some, length};
ghost use Rattle.uip_wire.specs.declared.addr.Addr.{Addr as Address};
ghost use Rattle.link_client.specs.Prelude.{advertises_window};
ghost use Rattle.link_world.specs.Prelude.{client_acts, handed};
ghost use Rattle.link_world.specs.World.{World as PlainWorld, at_side};
ghost use Rattle.link_replay.specs.Prelude.{ChangesAt, KeepsLink, PostsOfClient, own_step, IsLink, LinkRepresents, link_of, CodeSent};

use crate::world::client_steps::Own;
use crate::world::sent::Sent;
use crate::world::sent_list::post;
use crate::world::side::Side;
use link_world::Who;
use uip_edge::NoMemory;
use uip_wire::LARGEST_DATAGRAM;

/// Appends what a client sends, if it sends a datagram, from the start of the area.
fn post_prefix(
    sides: &[Side],
    sent: &mut Vec<Sent>,
    area: &[u8],
    number: u8,
    len: Option<usize>,
    tick: u32,
) -> Result<(), NoMemory>
    requires area { length area.now ≡ LARGEST_DATAGRAM }
    requires inside { (n : ℕ) → len ≡ Some n → n ≤ length area.now }
    ensures kept { KeepsLink (link_of sides.now sent.old.items) (link_of sides.now sent.new.items) }
    ensures posted { OnOk result
        (PostsOfClient number len tick area.now (link_of sides.now sent.old.items) (link_of sides.now sent.new.items)) }
{
    let Some(len) = len else {
        return Ok(());
    };
    let bytes = area[..len].to_vec(*sent.allocator())?;
    post(sides, sent, Who::FromClient(number), tick, false, bytes)?;
    Ok(())
}

/// Does an act of a client by itself.
pub(crate) fn act_alone(
    sides: &mut Vec<Side>,
    sent: &mut Vec<Sent>,
    area: &mut Vec<u8>,
    number: u8,
    own: Own,
    tick: u32,
) -> Result<(), NoMemory>
    requires kept { (addr : Address) × IsLink addr (link_of sides.old.items sent.old.items) }
    requires room { length area.old.items ≡ LARGEST_DATAGRAM }
    ensures kept { KeepsLink (link_of sides.old.items sent.old.items) (link_of sides.new.items sent.new.items) }
    ensures room { length area.new.items ≡ LARGEST_DATAGRAM }
    ensures acted { OnOk result (ChangesAt tick (λ w. client_acts w number (own_step own))
        (link_of sides.old.items sent.old.items) (link_of sides.new.items sent.new.items)) }
{
    let place = usize::from(number);
    if place == 0 || place > sides.len() {
        return Ok(());
    }
    let len = sides[place - 1].act(own, area.as_mut_slice());
    post_prefix(sides.as_slice(), sent, area.as_slice(), number, len, tick)?;
    Ok(())
}

/// Makes a client advertise a window from now on.
pub(crate) fn advertise_window(sides: &mut Vec<Side>, number: u8, window: u16)
    ensures kept { (addr : Address) (sent : List CodeSent) → IsLink addr (link_of sides.old.items sent)
        → IsLink addr (link_of sides.new.items sent) }
    ensures reported { (w : PlainWorld) (sent : List CodeSent) → LinkRepresents (link_of sides.old.items sent) w
        → LinkRepresents (link_of sides.new.items sent) (client_acts w number (advertises_window window)) }
{
    let place = usize::from(number);
    if place == 0 || place > sides.len() {
        return;
    }
    sides[place - 1].advertise_window(window);
}

/// Passes the bytes of a datagram to a client.
pub(crate) fn receive(
    sides: &mut Vec<Side>,
    sent: &mut Vec<Sent>,
    area: &mut Vec<u8>,
    number: u8,
    datagram: &[u8],
    tick: u32,
) -> Result<(), NoMemory>
    requires kept { (addr : Address) × IsLink addr (link_of sides.old.items sent.old.items) }
    requires room { length area.old.items ≡ LARGEST_DATAGRAM }
    requires most { length datagram.now ≤ LARGEST_DATAGRAM }
    ensures kept { KeepsLink (link_of sides.old.items sent.old.items) (link_of sides.new.items sent.new.items) }
    ensures room { length area.new.items ≡ LARGEST_DATAGRAM }
    ensures delivered { OnOk result (ChangesAt tick (λ w. at_side w number (handed w number datagram.now))
        (link_of sides.old.items sent.old.items) (link_of sides.new.items sent.new.items)) }
{
    let place = usize::from(number);
    if place == 0 || place > sides.len() {
        return Ok(());
    }
    let len = sides[place - 1].receive(datagram, area.as_mut_slice())?;
    post_prefix(sides.as_slice(), sent, area.as_slice(), number, len, tick)?;
    Ok(())
}
