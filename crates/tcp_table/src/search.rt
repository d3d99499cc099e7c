//! Searches of the ten slots.

ghost use Rattle.std.specs.Prelude.{◌≡◌, position, not};
ghost use Rattle.app_events.specs.Prelude.{is_live};
ghost use Rattle.tcp_table.specs.Prelude.{is_at, longest_rest, has_waited, slot_to_take};

use crate::conn::Conn;
use uip_wire::{Addr, Port};

/// Returns the first slot with this peer and these ports.
pub(crate) fn find_in<A>(
    conns: &[Conn<A>],
    peer: Addr,
    peer_port: Port,
    own_port: Port,
) -> Option<usize>
    ensures { result ≡ position (is_at peer peer_port own_port) conns.now }
{
    conns
        .iter()
        .position(|conn| conn.is_at(peer, peer_port, own_port))
}

/// Returns the first CLOSED slot.
fn closed_in<A>(conns: &[Conn<A>]) -> Option<usize>
    ensures { result ≡ position (λ c. not (is_live c.state)) conns.now }
{
    conns.iter().position(|conn| !conn.is_live())
}

/// Returns the longest time in TIME-WAIT, in ticks; 0 if no connection is in it.
fn longest_in<A>(conns: &[Conn<A>]) -> u8
    ensures { result ≡ longest_rest conns.now }
{
    let mut longest = 0;
    for conn in conns {
        longest = longest.max(conn.waited());
    }
    longest
}

/// Returns the first slot whose connection has been in TIME-WAIT for `ticks` ticks.
fn waited_in<A>(conns: &[Conn<A>], ticks: u8) -> Option<usize>
    ensures { result ≡ position (has_waited ticks) conns.now }
{
    conns.iter().position(|conn| conn.has_waited(ticks))
}

/// Returns the slot that a plain SYN takes.
pub(crate) fn slot_in<A>(conns: &[Conn<A>]) -> Option<usize>
    ensures { result ≡ slot_to_take conns.now }
{
    match closed_in(conns) {
        Some(slot) => Some(slot),
        None => waited_in(conns, longest_in(conns)),
    }
}
