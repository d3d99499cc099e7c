use crate::why::Why;

/// Why a schedule was not read.
#[derive(Clone, Copy, Debug, PartialEq, Eq)]
pub enum ReadSchedule {
    /// The first bad line, counted from 1, and what is bad there.
    Bad { line: u32, why: Why },
    /// An allocation failed.
    NoMemory,
}
