//! A connection that C reads.

ghost use Rattle.std.specs.Prelude.{◌≡◌};
ghost use Rattle.c_pages.specs.Rows.{IsNoRow, IsReportedRow, ReportsRow, state_number};

use app_events::{Row, State};
use c_calls::OK;

/// A connection: its state and its peer; the retransmissions of what is outstanding, and the ticks until the timer acts; 1 if something is
/// outstanding, else 0.
#[repr(C)]
#[derive(Clone, Copy, Debug, PartialEq, Eq)]
pub struct UipRow {
    pub status: u32,
    pub state: u32,
    pub peer: [u8; 4],
    pub port: u32,
    pub tries: u32,
    pub count: u32,
    pub waiting: u32,
}

/// Returns the number of a state in include/uip.h: that of its variant.
/// [add: state] Its number for C.
#[inline]
fn number_of(state: State) -> u32
    ensures { result ≡ state_number state }
{
    state as u32
}

/// Reports a row to C.
#[inline]
fn reported_row(row: Row) -> UipRow
    ensures status { result.status ≡ OK }
    ensures row { IsReportedRow row result }
{
    let peer = row.peer.0;
    UipRow {
        status: OK,
        state: number_of(row.state),
        peer,
        port: row.port.0 as u32,
        tries: row.tries as u32,
        count: row.count as u32,
        waiting: row.waiting as u32,
    }
}

impl UipRow {
    /// Reports no connection: for this reason, or because the slot is CLOSED.
    #[inline]
    pub fn unread(status: u32) -> UipRow
        ensures { (result.status ≡ status) × IsNoRow result }
    {
        UipRow {
            status,
            state: 0,
            peer: [0; 4],
            port: 0,
            tries: 0,
            count: 0,
            waiting: 0,
        }
    }

    /// Reports the connection that was read, or that the slot is CLOSED.
    #[inline]
    pub fn read(row: Option<Row>) -> UipRow
        ensures status { result.status ≡ OK }
        ensures row { ReportsRow row result }
    {
        match row {
            Some(row) => reported_row(row),
            None => UipRow::unread(OK),
        }
    }
}
