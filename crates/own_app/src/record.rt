//! Bytes that are stored, and offsets in them.

ghost use Rattle.app_events.specs.Prelude.{IsByte};
ghost use Rattle.std.specs.Prelude.{◌≡◌, ◌≤◌, ◌+◌, ◌-◌, All, drop, length, take};

use arrayvec::ArrayVec;

/// Returns a copy of these bytes.
pub(crate) fn copied<const N: usize>(bytes: &[u8]) -> ArrayVec<u8, N>
    requires { length bytes.now ≤ N }
    ensures { result.items ≡ bytes.now }
{
    let mut area = ArrayVec::new();
    let _fits = area.try_extend_from_slice(bytes);
    area
}

/// Copies the part of a text at an offset.
pub(crate) fn copy_from(text: &[u8], at: usize, out: &mut [u8])
    requires { at + length out.old ≤ length text.now }
    ensures { out.new ≡ take (length out.old) (drop at text.now) }
{
    let end = at + out.len();
    out.copy_from_slice(&text[at..end]);
}

/// Returns the offset in a text after a number of further bytes.
pub(crate) fn advanced(text: &[u8], at: usize, count: usize) -> usize
    requires { at + count ≤ length text.now }
    ensures { result ≡ at + count }
{
    let _ = text.len();
    at + count
}

/// Returns the length of the text after an offset.
pub(crate) fn rest_len(text: &[u8], at: usize) -> usize
    requires { at ≤ length text.now }
    ensures { result ≡ length text.now - at }
{
    text.len() - at
}

/// A text consists of bytes.
pub(crate) fn see_bytes(text: &[u8])
    ensures { All IsByte text.now }
{}
