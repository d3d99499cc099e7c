//! A connection as pages show it.

use crate::state::State;
use arrayvec::ArrayVec;
use std::marker::Model;
use uip_wire::{Addr, Port};

/// A connection as a row of the table of connections.
#[derive(Clone, Copy, Debug, Drop)]
pub struct Row {
    pub slot: u8,
    pub peer: Addr,
    pub port: Port,
    pub state: State,
    /// The number of retransmissions of what is outstanding.
    pub tries: u8,
    /// The ticks that pass before the timer acts: it acts at the tick after them.
    pub count: u8,
    /// Whether something is outstanding.
    pub waiting: bool,
}

impl Default for Row {
    fn default() -> Row {
        Row {
            slot: 0,
            peer: Addr([0; 4]),
            port: Port(0),
            state: State::Closed,
            tries: 0,
            count: 0,
            waiting: false,
        }
    }
}

/// The rows of the connections that are not CLOSED, in the order of their slots. Contracts see the list.
#[derive(Drop)]
pub struct RowList {
    pub list: ArrayVec<Row, 10>,
}

impl Model for RowList {
    ghost use Rattle.std.specs.Prelude.{List};
    ghost use Rattle.app_events.specs.declared.row.Row.{Row};

    ghost Value = { List Row };

    ghost view = { λ rows. rows.list.items };
}
