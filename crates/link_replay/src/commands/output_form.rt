//! What `replay` and `load` write: a report or a summary.

/// What is written of the world that a schedule reaches.
#[derive(Clone, Copy, Debug, PartialEq, Eq)]
pub enum OutputForm {
    /// The report, and if all is shown a line for each datagram and the bytes that each client received.
    Report { show: bool },
    /// The result, in one line.
    Summary,
}
