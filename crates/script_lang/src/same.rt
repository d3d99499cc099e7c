//! Compares a text with a word of 4 to 16 bytes, four bytes at a time: no loop and no call, if the word is a constant.

ghost use Rattle.std.specs.Prelude.{◌≡◌, ◌+◌, ◌<◌, ◌≤◌, ◌∷◌, Decides, [], bytes_eq, length, nat_eq, slice_index, slice_range, ℕ};
ghost use Rattle.std.specs.Int.{w32, from_le_bytes};
ghost use Rattle.std.specs.List.{ends_with};

/// Returns the four bytes from an offset on, as a number.
#[inline(always)]
fn four_at(text: &[u8], at: usize) -> u32
    requires { at + 4 ≤ length text.now }
    ensures { result ≡ from_le_bytes w32
        (slice_index text.now at ∷ slice_index text.now (at + 1) ∷ slice_index text.now (at + 2) ∷ slice_index text.now (at + 3) ∷ []) }
{
    u32::from_le_bytes([text[at], text[at + 1], text[at + 2], text[at + 3]])
}

/// Returns whether the four bytes from one offset on are those of the other text from its offset on.
#[inline(always)]
fn same_four(text: &[u8], at: usize, other: &[u8], from: usize) -> bool
    requires text_fits { at + 4 ≤ length text.now }
    requires other_room { from + 4 ≤ length other.now }
    ensures { Decides result ((k : ℕ) → k < 4 → slice_index text.now (at + k) ≡ slice_index other.now (from + k)) }
{
    four_at(text, at) == four_at(other, from)
}

/// Returns whether the text has the word at an offset.
#[inline(always)]
fn has_at(text: &[u8], at: usize, word: &[u8]) -> bool
    requires room { at + length word.now ≤ length text.now }
    requires low { 4 ≤ length word.now }
    requires high { length word.now ≤ 16 }
    ensures { result ≡ bytes_eq (slice_range text.now at (at + length word.now)) word.now }
{
    let last = word.len() - 4;
    if last == 1 {
        return same_four(text, at, word, 0) & (text[at + 4] == word[4]);
    }
    let second = last.min(4);
    let third = last.min(8);
    same_four(text, at, word, 0)
        & same_four(text, at + second, word, second)
        & same_four(text, at + third, word, third)
        & same_four(text, at + last, word, last)
}

/// Returns whether the text is the word.
#[inline(always)]
pub fn is_word(text: &[u8], word: &[u8]) -> bool
    requires low { 4 ≤ length word.now }
    requires high { length word.now ≤ 16 }
    ensures { result ≡ bytes_eq text.now word.now }
{
    text.len() == word.len() && has_at(text, 0, word)
}

/// Returns whether the text ends in the word.
#[inline(always)]
pub fn ends_in(text: &[u8], word: &[u8]) -> bool
    requires low { 4 ≤ length word.now }
    requires high { length word.now ≤ 16 }
    ensures { result ≡ ends_with nat_eq text.now word.now }
{
    text.len() >= word.len() && has_at(text, text.len() - word.len(), word)
}
