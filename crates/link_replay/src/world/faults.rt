//! Why an act is refused.

ghost use Rattle.std.specs.Prelude.{◌≡◌, ◌≤◌, ℕ, List, IfSome, None, length};
ghost use Rattle.link_world.specs.Prelude.{fault_of, if_idle, is_idle, named_fault, state_at};
ghost use Rattle.link_world.specs.World.{Side as PlainSide, World as PlainWorld, numbered};
ghost use Rattle.link_replay.specs.Prelude.{Matched, LinkRepresents, SentRepresents, SideRepresents, link_of};
ghost use Rattle.link_replay.specs.Reaching.{IsNamed};

use crate::world::line_acts::needs;
use crate::world::numbers::at_number;
use crate::world::sent::Sent;
use crate::world::side::Side;
use link_client::{Client, ClientState};
use link_world::{Act, StepFault};

/// The greatest number of a datagram.
pub(crate) const MOST_DATAGRAMS: usize = 65535;

/// Returns whether a client is idle.
pub(crate) fn is_idle_client(client: &Client) -> bool
    ensures { result ≡ is_idle client.now.state }
{
    match client.state {
        ClientState::Idle => true,
        ClientState::Opening
        | ClientState::Opened
        | ClientState::Closing
        | ClientState::Closed
        | ClientState::Ended
        | ClientState::Reset => false,
    }
}

/// Returns whether the client with this number is idle, or there is none.
fn is_idle(sides: &[Side], number: u8) -> bool
    ensures { (ss : List PlainSide) → Matched SideRepresents sides.now ss → result ≡ is_idle (state_at (numbered ss number)) }
{
    match at_number(sides, usize::from(number)) {
        Some(side) => is_idle_client(&side.client),
        None => true,
    }
}

/// Returns the fault of an act of a client that is idle.
fn if_idle(sides: &[Side], number: u8) -> Option<StepFault>
    ensures exact { (ss : List PlainSide) → Matched SideRepresents sides.now ss → result ≡ if_idle (numbered ss number) }
    ensures named { IfSome result IsNamed }
{
    if is_idle(sides, number) {
        Some(StepFault::NotOpen)
    } else {
        None
    }
}

/// Returns a fault if the datagram with this number is not yet sent.
fn no_datagram(sent: &[Sent], number: u32) -> Option<StepFault>
    ensures exact { (w : PlainWorld) → Matched (SentRepresents w) sent.now w.sent → result ≡ named_fault w (Act.Give number) }
    ensures named { IfSome result IsNamed }
{
    match at_number(sent, number as usize) {
        Some(_) => None,
        None => Some(StepFault::NoDatagram),
    }
}

/// Returns a fault if the datagram with this number is not yet sent, or has no byte at this offset.
fn no_byte(sent: &[Sent], number: u32, at: u16) -> Option<StepFault>
    ensures exact { (w : PlainWorld) (mask : ℕ) → Matched (SentRepresents w) sent.now w.sent
        → result ≡ named_fault w (Act.Damage number at mask) }
    ensures named { IfSome result IsNamed }
{
    let Some(datagram) = at_number(sent, number as usize) else {
        return Some(StepFault::NoDatagram);
    };
    if usize::from(at) < datagram.bytes.len() {
        None
    } else {
        Some(StepFault::NoByte)
    }
}

/// Returns why an act is refused, apart from a lack of numbers.
/// [add: act] Why it is refused.
fn named_fault(sides: &[Side], sent: &[Sent], act: &Act) -> Option<StepFault>
    ensures window { (number size : ℕ) → act.now ≡ Act.Window number size → result ≡ None }
    ensures exact { (w : PlainWorld) → LinkRepresents (link_of sides.now sent.now) w → result ≡ named_fault w act.now }
    ensures named { IfSome result IsNamed }
{
    match *act {
        Act::Opens(number) => {
            if is_idle(sides, number) {
                None
            } else {
                Some(StepFault::AlreadyOpen)
            }
        }
        Act::Again(number) | Act::Closes(number) | Act::Aborts(number) => if_idle(sides, number),
        Act::Give(number) => no_datagram(sent, number),
        Act::Damage { number, at, .. } => no_byte(sent, number, at),
        Act::Window(..) | Act::Ping(_) | Act::Tick => None,
    }
}

/// Returns why an act is refused.
pub(crate) fn fault_of(sides: &[Side], sent: &[Sent], act: &Act) -> Option<StepFault>
    ensures window { (number size : ℕ) → act.now ≡ Act.Window number size → length sent.now ≤ 65535 → result ≡ None }
    ensures exact { (w : PlainWorld) → LinkRepresents (link_of sides.now sent.now) w → result ≡ fault_of w act.now }
    ensures named { IfSome result IsNamed }
{
    match named_fault(sides, sent, act) {
        Some(fault) => Some(fault),
        None => {
            if sent.len() > MOST_DATAGRAMS - needs(act) {
                Some(StepFault::Full)
            } else {
                None
            }
        }
    }
}
