//! The rows of the table of connections, in as little memory as a record can keep them.

ghost use Rattle.std.specs.Prelude.{◌≡◌, ◌≤◌, ◌<◌, length, take};
ghost use Rattle.generators.specs.Packed.{numbered_state, row_in, rows_in};
ghost use Rattle.generators.specs.Text.{row_text};

use crate::packed_rows::{PackedRow, PackedRows};
use crate::parts::Place;
use crate::rows::rows_of;
use crate::written::Written;
use app_events::{Row, RowList, State};
use uip_wire::{Addr, Port};

/// Returns the number of a state.
/// [add: state] Its number, here and in the function below.
fn number_of(state: State) -> u8
    ensures state { numbered_state result ≡ state }
    ensures few { result < 16 }
{
    match state {
        State::Closed => 0,
        State::SynRcvd => 1,
        State::Established => 2,
        State::CloseWait => 3,
        State::FinWait1 => 4,
        State::FinWait2 => 5,
        State::Closing => 6,
        State::TimeWait => 7,
        State::LastAck => 8,
    }
}

/// Returns the state of a number.
fn numbered_state(number: u8) -> State
    ensures { result ≡ numbered_state number }
{
    match number {
        1 => State::SynRcvd,
        2 => State::Established,
        3 => State::CloseWait,
        4 => State::FinWait1,
        5 => State::FinWait2,
        6 => State::Closing,
        7 => State::TimeWait,
        8 => State::LastAck,
        _ => State::Closed,
    }
}

/// Packs a row.
fn packed(row: &Row) -> PackedRow
    ensures { row_in result ≡ row.now }
{
    let number = number_of(row.state);
    let mark = if row.waiting { 16 + number } else { number };
    PackedRow {
        slot: row.slot,
        mark,
        peer: row.peer,
        port: row.port,
        tries: row.tries,
        count: row.count,
    }
}

/// Unpacks a row.
fn row_in(packed: &PackedRow) -> Row
    ensures { result ≡ row_in packed.now }
{
    let waiting = packed.mark >= 16;
    let number = if waiting {
        packed.mark - 16
    } else {
        packed.mark
    };
    Row {
        slot: packed.slot,
        peer: packed.peer,
        port: packed.port,
        state: numbered_state(number),
        tries: packed.tries,
        count: packed.count,
        waiting,
    }
}

/// Returns the row that fills what no row takes.
fn no_row() -> PackedRow
    ensures { result.slot ≡ 0 }
{
    PackedRow {
        slot: 0,
        mark: 0,
        peer: Addr([0; 4]),
        port: Port(0),
        tries: 0,
        count: 0,
    }
}

/// Packs rows.
pub fn pack_rows(rows: &RowList) -> PackedRows
    ensures { rows_in result ≡ rows.now }
{
    let mut list = [no_row(); 10];
    let items = rows_of(rows);
    for (place, row) in items.iter().enumerate() {
        list[place] = packed(row);
    }
    PackedRows {
        len: items.len() as u8,
        list,
    }
}

impl PackedRows {
    /// Returns the rows as they are packed.
    pub(crate) fn packed(&self) -> &[PackedRow]
        ensures rows { result.now ≡ take self.now.len self.now.list }
        ensures few { length result.now ≤ 10 }
    {
        &self.list[..self.len as usize]
    }
}

impl Written for PackedRow {
    ghost text = { λ row. row_text (row_in row) };

    ghost longest = { 420 };

    fn len(&self) -> usize {
        row_in(self).len()
    }

    fn put(&self, place: Place, out: &mut [u8]) -> Place {
        row_in(self).put(place, out)
    }
}
