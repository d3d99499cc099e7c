//! The rows of the table of connections.

ghost use Rattle.std.specs.Prelude.{◌≡◌, ◌≤◌, length};
ghost use Rattle.uip_node.specs.Prelude.{live_rows, row_in};

use app_events::{Row, RowList};
use arrayvec::ArrayVec;
use tcp_table::Conn;

/// Returns the connection in a slot as a row.
fn row_in<A>(slot: u8, conn: &Conn<A>) -> Row
    ensures { result ≡ row_in slot conn.now }
{
    Row {
        slot,
        peer: conn.peer,
        port: conn.peer_port,
        state: conn.state,
        tries: conn.timer.tries,
        count: conn.timer.count,
        waiting: conn.len > 0,
    }
}

/// Returns the rows of the connections that are not CLOSED, in the order of their slots.
pub(crate) fn rows_of<A>(conns: &[Conn<A>]) -> RowList
    requires { length conns.now ≤ 10 }
    ensures { result ≡ live_rows 0 conns.now }
{
    let mut list: ArrayVec<Row, 10> = ArrayVec::new();
    for (slot, conn) in conns.iter().enumerate() {
        if conn.is_live() {
            list.push(row_in(slot as u8, conn));
        }
    }
    RowList { list }
}
