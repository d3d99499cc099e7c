//! Lines of text, complete before they are written.

use text_buffer::Text;

/// The greatest length of a line, in bytes.
const LONGEST_LINE: usize = 256;

/// A line of a report or a summary, in a buffer of its own, complete before it is written.
pub(crate) type Line = Text<LONGEST_LINE>;
