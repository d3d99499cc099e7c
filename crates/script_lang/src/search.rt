//! Searches a script for a byte, 32 bytes at a time.

ghost use Rattle.std.specs.Prelude.{◌≡◌, ◌+◌, ◌<◌, ◌≤◌, not, length};
ghost use Rattle.script_lang.specs.Places.{is_byte, first_place};
ghost use Rattle.script_lang.specs.Directives.{is_directive_mark};

use std::simd::prelude::*;

/// How many bytes are compared at once.
const LANES: usize = 32;

/// Returns the first offset of `byte` from `from` up to before `to`, else `to`.
#[inline(never)]
pub(crate) fn byte_from(text: &[u8], byte: u8, from: usize, to: usize) -> usize
    requires ordered { from ≤ to }
    requires inside { to ≤ length text.now }
    ensures place { result ≡ first_place (is_byte text.now byte) from to }
    ensures low { from ≤ result }
    ensures high { result ≤ to }
{
    let mut at = from;
    while to - at >= LANES {
        let place = byte_in_lanes(text, byte, at);
        if place < at + LANES {
            return place;
        }
        at += LANES;
    }
    byte_one_by_one(text, byte, at, to)
}

/// Does the same for the lanes from an offset on.
#[inline(always)]
fn byte_in_lanes(text: &[u8], byte: u8, at: usize) -> usize
    requires { at + LANES ≤ length text.now }
    ensures { result ≡ first_place (is_byte text.now byte) at (at + LANES) }
{
    let lanes = u8x32::from_slice(&text[at..]);
    let mask = lanes.simd_eq(u8x32::splat(byte)).to_bitmask();
    if mask == 0 {
        return at + LANES;
    }
    at + mask.trailing_zeros() as usize
}

/// Does the same for a few bytes, one by one.
#[inline(always)]
fn byte_one_by_one(text: &[u8], byte: u8, from: usize, to: usize) -> usize
    requires ordered { from ≤ to }
    requires inside { to ≤ length text.now }
    ensures place { result ≡ first_place (is_byte text.now byte) from to }
    ensures low { from ≤ result }
    ensures high { result ≤ to }
{
    for at in from..to {
        if text[at] == byte {
            return at;
        }
    }
    to
}

/// Returns the first offset of another byte than `byte` from `from` up to before `to`, else `to`.
#[inline(always)]
pub(crate) fn other_from(text: &[u8], byte: u8, from: usize, to: usize) -> usize
    requires ordered { from ≤ to }
    requires inside { to ≤ length text.now }
    ensures place { result ≡ first_place (λ p. not (is_byte text.now byte p)) from to }
    ensures low { from ≤ result }
    ensures high { result ≤ to }
{
    for at in from..to {
        if text[at] != byte {
            return at;
        }
    }
    to
}

/// Returns whether `%!` is at the offset.
#[inline(always)]
pub(crate) fn is_mark_at(text: &[u8], at: usize) -> bool
    requires { at < length text.now }
    ensures { result ≡ is_directive_mark text.now at }
{
    text[at] == b'%' && text.len() - at > 1 && text[at + 1] == b'!'
}

/// Returns the first offset of `%!` from `from` up to before `to`, else `to`.
#[inline(always)]
pub(crate) fn mark_from(text: &[u8], from: usize, to: usize) -> usize
    requires ordered { from ≤ to }
    requires inside { to ≤ length text.now }
    ensures place { result ≡ first_place (is_directive_mark text.now) from to }
    ensures low { from ≤ result }
    ensures high { result ≤ to }
{
    let mut at = from;
    while at < to {
        at = byte_from(text, b'%', at, to);
        if at == to || is_mark_at(text, at) {
            return at;
        }
        at += 1;
    }
    to
}
