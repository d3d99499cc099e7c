//! Calls of the node, with their output written to the sink.

ghost use Rattle.std.specs.Prelude.{◌≡◌, ◌<◌, ◌≤◌, List, length, Option, OnOk, OnErr};
ghost use Rattle.uip_edge.specs.Prelude.{HasCause};
ghost use Rattle.uip_node.specs.Prelude.{event_of, Periodic};
ghost use Rattle.serve_loop.specs.Prelude.{tick_on, BreaksNodeEvent, BreaksStationEvents, BreaksSent};
ghost use Rattle.serve_loop.specs.Prelude.{PlaysNodeEvent, PlaysStationEvents, StaysFed, WritesSent, place};

use app_events::App;
use line_medium::Medium;
use uip_edge::{Failed, Sink};
use uip_node::Node;
use uip_wire::LARGEST_DATAGRAM;

/// Writes the datagram that a call of the node sent, if it sent one.
fn write_sent<A: App, M: Medium, K: Sink>(
    node: &Node<A>,
    sent: Option<usize>,
    medium: &mut M,
    sink: &mut K,
) -> Result<(), Failed>
    ensures fed { StaysFed M.Medium medium.old medium.new }
    ensures did { (k : M.Config) (acts : List M.Act) → M.did medium.old k acts → M.did medium.new k acts }
    ensures ok { OnOk result (WritesSent M.Medium medium.old sent node.now.packet (K.written sink.old) (K.written sink.new)) }
    ensures err { OnErr result (BreaksSent M.Medium medium.old sent node.now.packet (K.written sink.old) (K.written sink.new)) }
    ensures cause { HasCause (K.faults sink.old) (K.faults sink.new) result }
{
    match sent {
        None => Ok(()),
        Some(_) => medium.send(node.packet(), sink),
    }
}

/// Inputs the datagram that was just decoded to the node, and writes the reply.
pub(crate) fn input_datagram<A: App, M: Medium, K: Sink>(
    node: &mut Node<A>,
    medium: &mut M,
    count: usize,
    sink: &mut K,
) -> Result<(), Failed>
    requires shows { M.shows medium.old count }
    requires most { length (M.shown medium.old) ≤ LARGEST_DATAGRAM }
    ensures same { A.config node.new.shared ≡ A.config node.old.shared }
    ensures fed { StaysFed M.Medium medium.old medium.new }
    ensures ok { OnOk result (PlaysNodeEvent A.App M.Medium
        (λ own. event_of own (M.shown medium.old))
        (place medium.old node.old (K.written sink.old)) (place medium.new node.new (K.written sink.new))) }
    ensures err { OnErr result (BreaksNodeEvent A.App M.Medium
        (λ own. event_of own (M.shown medium.old))
        (place medium.old node.old (K.written sink.old)) (place medium.new node.new (K.written sink.new))) }
    ensures cause { HasCause (K.faults sink.old) (K.faults sink.new) result }
{
    let sent = node.input(medium.shown(count));
    write_sent(node, sent, medium, sink)
}

/// Makes the periodic call of a slot, and writes what it sends.
fn call_slot<A: App, M: Medium, K: Sink>(
    node: &mut Node<A>,
    medium: &mut M,
    slot: usize,
    sink: &mut K,
) -> Result<(), Failed>
    requires within { slot < 10 }
    ensures same { A.config node.new.shared ≡ A.config node.old.shared }
    ensures fed { StaysFed M.Medium medium.old medium.new }
    ensures ok { OnOk result (PlaysNodeEvent A.App M.Medium
        (λ own. Periodic slot)
        (place medium.old node.old (K.written sink.old)) (place medium.new node.new (K.written sink.new))) }
    ensures err { OnErr result (BreaksNodeEvent A.App M.Medium
        (λ own. Periodic slot)
        (place medium.old node.old (K.written sink.old)) (place medium.new node.new (K.written sink.new))) }
    ensures cause { HasCause (K.faults sink.old) (K.faults sink.new) result }
{
    let sent = node.periodic(slot);
    write_sent(node, sent, medium, sink)
}

/// Makes a tick: the medium's, then the periodic calls of all slots in order.
pub(crate) fn tick<A: App, M: Medium, K: Sink>(
    node: &mut Node<A>,
    medium: &mut M,
    sink: &mut K,
) -> Result<(), Failed>
    ensures same { A.config node.new.shared ≡ A.config node.old.shared }
    ensures fed { StaysFed M.Medium medium.old medium.new }
    ensures ok { OnOk result (PlaysStationEvents A.App M.Medium
        (λ k own. tick_on (M.spec k))
        (place medium.old node.old (K.written sink.old)) (place medium.new node.new (K.written sink.new))) }
    ensures err { OnErr result (BreaksStationEvents A.App M.Medium
        (λ k own. tick_on (M.spec k))
        (place medium.old node.old (K.written sink.old)) (place medium.new node.new (K.written sink.new))) }
    ensures cause { HasCause (K.faults sink.old) (K.faults sink.new) result }
{
    medium.tick();
    for slot in 0..10 {
        call_slot(node, medium, slot, sink)?;
    }
    Ok(())
}
