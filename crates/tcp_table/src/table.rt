//! The table and its calls.

ghost use Rattle.std.specs.Prelude.{◌≡◌, ◌+◌, ◌%◌, ◌^◌, ◌<◌, length, IfOk, All, position};
ghost use Rattle.tcp_table.specs.Connections.{is_at};
ghost use Rattle.tcp_table.specs.Slots.{slot_to_take};

use crate::conn::Conn;
use crate::search::{find_in, slot_in};
use app_events::{App, State};
use std::alloc::{AllocError, Global};
use std::marker::Model;
use uip_edge::NoMemory;
use uip_wire::{Addr, Port, Seq};

/// The number of connections of a table.
pub const CONNECTIONS: usize = 10;

/// The connections of a node.
#[derive(Drop)]
pub struct Table<A: App> {
    pub conns: Vec<Conn<A>>,
    /// The ISS of the next connection.
    pub iss: Seq,
}

impl<A: App> Model for Table<A> {
    ghost use Rattle.std.specs.Prelude.{◌≡◌, length};
    ghost use Rattle.tcp_table.specs.Connections.{Connections, IsTable};

    ghost Value = { Connections A };

    ghost view = { λ t. record { conns = t.conns.items; iss = t.iss.0 } };

    ghost invariant = { λ t. IsTable t.conns.items };
}

impl<A: App> Table<A> {
    /// Returns ten CLOSED connections and the ISS 0, or `NoMemory`.
    pub fn new(alloc: Global) -> Result<Table<A>, NoMemory>
        ensures closed { IfOk result (λ t. All (λ c. c.state ≡ State.Closed) t.conns) }
        ensures iss { IfOk result (λ t. t.iss ≡ 0) }
    {
        let conns = ten_closed(alloc).map_err(|_| NoMemory)?;
        Ok(Table { conns, iss: Seq(0) })
    }

    /// Returns the slot of the connection that is not CLOSED and has this peer and these ports.
    pub fn find(&self, peer: Addr, peer_port: Port, own_port: Port) -> Option<usize>
        ensures { result ≡ position (is_at peer peer_port own_port) self.now.conns }
    {
        find_in(&self.conns, peer, peer_port, own_port)
    }

    /// Returns the slot that a plain SYN takes, if there is one.
    pub fn slot_for_syn(&self) -> Option<usize>
        ensures { result ≡ slot_to_take self.now.conns }
    {
        slot_in(&self.conns)
    }

    /// Adds 1 to the ISS of the next connection.
    pub fn next_iss(&mut self)
        ensures conns { self.new.conns ≡ self.old.conns }
        ensures iss { self.new.iss ≡ (self.old.iss + 1) % 2 ^ 32 }
    {
        self.iss = self.iss.add(1);
    }
}

/// Returns ten CLOSED connections.
fn ten_closed<A: App>(alloc: Global) -> Result<Vec<Conn<A>>, AllocError>
    ensures ten { IfOk result (λ v. length v.items ≡ 10) }
    ensures closed { IfOk result (λ v. All (λ c. c.state ≡ State.Closed) v.items) }
{
    let mut conns = Vec::with_capacity(alloc, CONNECTIONS)?;
    for _ in 0..CONNECTIONS {
        conns.push(Conn::closed())?;
    }
    Ok(conns)
}
