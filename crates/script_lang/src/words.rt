ghost use Rattle.std.specs.Prelude.{◌≡◌, ◌+◌, ◌≤◌, length};
ghost use Rattle.script_lang.specs.Places.{word};

use crate::search::{byte_from, other_from};

/// A part of a script. Both numbers are 0 if it is empty.
#[derive(Clone, Copy)]
pub(crate) struct Span {
    pub at: usize,
    pub len: usize,
}

/// Returns the first word of the part from `from` up to before `to`. Spaces separate words.
#[inline(never)]
pub(crate) fn word_in(text: &[u8], from: usize, to: usize) -> Span
    requires ordered { from ≤ to }
    requires inside { to ≤ length text.now }
    ensures word { result ≡ word text.now from to }
    ensures within { result.at + result.len ≤ to }
{
    let start = other_from(text, b' ', from, to);
    let end = byte_from(text, b' ', start, to);
    if start == end {
        return Span { at: 0, len: 0 };
    }
    Span {
        at: start,
        len: end - start,
    }
}
