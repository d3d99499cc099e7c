use crate::event::Event;

/// A line of a schedule other than a client's: its number in the text, counted from 1, and what it states.
#[derive(Clone, Copy, Debug, PartialEq, Eq)]
pub struct Line {
    pub at: u32,
    pub event: Event,
}
