ghost use Rattle.std.specs.Prelude.{◌≡◌};
ghost use Rattle.generators.specs.Captures.{capture_of};

use crate::rows::copy_rows;
use app_events::{Now, RowList};
use script_lang::Function;

/// What the text of a call is made from, captured once.
/// [add: counter] The length of the array of `Net`.
/// [add: function] A variant with what its text is made from, and its arm in `take`.
#[derive(Drop)]
pub enum Capture {
    /// No text.
    Empty,
    /// The hit count of a file.
    Hits(u32),
    /// The tick count.
    Ticks(u32),
    /// The twenty counters of the node.
    Net([u32; 20]),
    /// The connections that are not CLOSED.
    Rows(RowList),
}

/// Captures the record of the function in this snapshot. `hits` is the hit count of the file that the argument names, or 0.
pub fn take(function: Function, hits: u32, now: &Now) -> Capture
    ensures { result ≡ capture_of function hits now.now }
{
    match function {
        Function::FileStats => Capture::Hits(hits),
        Function::TcpConnections => Capture::Rows(copy_rows(&now.rows)),
        Function::NetStats => Capture::Net(now.net),
        Function::Ticks => Capture::Ticks(now.ticks),
        Function::Unknown => Capture::Empty,
    }
}
