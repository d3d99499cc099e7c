//! The ends of `replay` and `load`.

use file_tree::SiteError;
use link_schedule::Why;

/// How a replay ends.
#[derive(Clone, Copy, Debug, PartialEq, Eq)]
pub enum ReplayEnd {
    /// The schedule was played to its end, and the whole report was written.
    Done,
    /// The shelf failed, or does not hold a file that is needed. Nothing was written.
    ShelfFault,
    /// The sink failed. A prefix of the text was written.
    WriteFault,
    /// The image has this first fault; a line that reports it was written.
    BadSite(SiteError),
    /// This line of the schedule is the first bad one, for this reason; a line that reports it was written.
    BadSchedule { line: u32, why: Why },
    /// Memory ran out. Nothing was written.
    NoMemory,
}
