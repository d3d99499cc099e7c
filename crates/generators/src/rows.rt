//! The rows of connections.

ghost use Rattle.std.specs.Prelude.{◌≡◌, ◌≤◌, length};

use app_events::{Row, RowList};
use arrayvec::ArrayVec;

/// Returns the rows as a slice.
pub(crate) fn rows_of(rows: &RowList) -> &[Row]
    ensures rows { result.now ≡ rows.now }
    ensures few { length result.now ≤ 10 }
{
    rows.list.as_slice()
}

/// Copies the rows, without allocation.
pub(crate) fn copy_rows(rows: &RowList) -> RowList
    ensures { result ≡ rows.now }
{
    let mut list: ArrayVec<Row, 10> = ArrayVec::new();
    for row in rows_of(rows) {
        list.push(*row);
    }
    RowList { list }
}
