//! The marks END and ESC (RFC 1055), and the search for the next one.

ghost use Rattle.std.specs.Prelude.{◌≡◌, ℕ, ◌≤◌, ◌+◌, ◌*◌, length, not, true, false, ◌<◌, slice_index, slice_range};
ghost use Rattle.std.specs.List.{list_all, prefix_len};
ghost use Rattle.uip_slip.specs.Frames.{IsPlainPrefix, is_mark, is_plain, meant as meant_of};

use std::simd::prelude::*;

/// Ends a frame, and begins one too.
pub const END: u8 = 0xC0;

/// Escapes the byte after it.
pub const ESC: u8 = 0xDB;

/// After an ESC: an END of the datagram.
pub const ESC_END: u8 = 0xDC;

/// After an ESC: an ESC of the datagram.
pub const ESC_ESC: u8 = 0xDD;

/// The number of bytes that are examined together.
const LANES: usize = 32;

/// The number of bytes of a long piece that are examined together.
const WIDE: usize = 64;

/// The number of bytes that are examined together as one number.
pub const WORD: usize = 8;

/// The high bit of each byte of such a number.
const HIGHS: u64 = 0x8080_8080_8080_8080;

/// The other bits.
const LOWS: u64 = 0x7F7F_7F7F_7F7F_7F7F;

/// END as each byte.
const ENDS: u64 = 0xC0C0_C0C0_C0C0_C0C0;

/// The bits in which END and ESC differ, in each byte.
const DIFFERENCES: u64 = 0x1B1B_1B1B_1B1B_1B1B;

/// Returns the length of the prefix without END and ESC.
#[inline(always)]
pub fn plain_len(bytes: &[u8]) -> usize
    ensures { IsPlainPrefix bytes.now result }
{
    match bytes.len() {
        0..8 => plain_by_words(bytes),
        8..16 => plain_of_some::<8>(bytes),
        16..32 => plain_of_some::<16>(bytes),
        32..64 => plain_of_some::<32>(bytes),
        _ => plain_of_many(bytes),
    }
}

/// The same for `N` to `2 * N` bytes, which the lanes from both ends cover.
#[inline(always)]
fn plain_of_some<const N: usize>(bytes: &[u8]) -> usize
    requires lanes { N ≤ 64 }
    requires least { N ≤ length bytes.now }
    requires most { length bytes.now ≤ 2 * N }
    ensures { IsPlainPrefix bytes.now result }
{
    let prefix = plain_lanes::<N>(bytes, 0);
    if prefix < N {
        return prefix;
    }
    let last = bytes.len() - N;
    last + plain_lanes::<N>(bytes, last)
}

/// The same for many bytes. The first lanes are examined alone, since most runs of binary bytes are short.
#[inline(always)]
fn plain_of_many(bytes: &[u8]) -> usize
    requires { WIDE ≤ length bytes.now }
    ensures { IsPlainPrefix bytes.now result }
{
    let prefix = plain_lanes::<LANES>(bytes, 0);
    if prefix < LANES {
        return prefix;
    }
    plain_after(bytes)
}

/// The same for many bytes, whose first lanes have neither.
fn plain_after(bytes: &[u8]) -> usize
    requires many { WIDE ≤ length bytes.now }
    requires prefix { (k : ℕ) → k < LANES → is_mark (slice_index bytes.now k) ≡ false }
    ensures { IsPlainPrefix bytes.now result }
{
    let last = bytes.len() - WIDE;
    let mut at = LANES;
    while at < last {
        let count = plain_wide(bytes, at);
        if count < WIDE {
            return at + count;
        }
        at += WIDE;
    }
    last + plain_wide(bytes, last)
}

/// The same, eight bytes at a time and the rest one by one.
fn plain_by_words(bytes: &[u8]) -> usize
    ensures { IsPlainPrefix bytes.now result }
{
    let mut at = 0;
    'words: while let Some(word) = bytes[at..].first_chunk::<WORD>() {
        if !is_plain_word(*word) {
            break;
        }
        at += WORD;
    }
    'rest: while at < bytes.len() {
        if bytes[at] == END || bytes[at] == ESC {
            return at;
        }
        at += 1;
    }
    at
}

/// Returns whether none of eight bytes is END or ESC. A byte below 128 is neither. Any other is one of them exactly if its low seven bits
/// are theirs. A sum with 127 has the high bit exactly if the bits differ, and nothing is carried to the next byte.
#[inline(always)]
pub fn is_plain_word(bytes: [u8; WORD]) -> bool
    ensures { result ≡ true → list_all is_plain bytes ≡ true }
{
    let word = u64::from_le_bytes(bytes);
    if word & HIGHS == 0 {
        return true;
    }
    let ends = word ^ ENDS;
    let low = ends & LOWS;
    let escs = low ^ DIFFERENCES;
    (((low + LOWS) & (escs + LOWS)) | ends) & HIGHS == HIGHS
}

/// Returns how many of the lanes from an offset on are before the first END or ESC.
#[inline(always)]
fn plain_lanes<const N: usize>(bytes: &[u8], at: usize) -> usize
    requires few { N ≤ 64 }
    requires room { at + N ≤ length bytes.now }
    ensures count { result ≡ prefix_len (λ b. not (is_mark b)) (slice_range bytes.now at (at + N)) }
    ensures bound { result ≤ N }
{
    let lanes: Simd<u8, N> = Simd::from_slice(&bytes[at..]);
    let marks = lanes.simd_eq(Simd::splat(END)) | lanes.simd_eq(Simd::splat(ESC));
    let mask = marks.to_bitmask();
    if mask == 0 {
        return N;
    }
    mask.trailing_zeros() as usize
}

/// The same for the wide lanes. Those after the first lanes are seldom ASCII: a datagram's header is there.
#[inline(always)]
fn plain_wide(bytes: &[u8], at: usize) -> usize
    requires { at + WIDE ≤ length bytes.now }
    ensures count { result ≡ prefix_len (λ b. not (is_mark b)) (slice_range bytes.now at (at + WIDE)) }
    ensures bound { result ≤ WIDE }
{
    if at > LANES && is_ascii(bytes, at) {
        return WIDE;
    }
    plain_lanes::<WIDE>(bytes, at)
}

/// Returns whether each of the wide lanes from an offset on is ASCII, which has neither END nor ESC.
#[inline(always)]
fn is_ascii(bytes: &[u8], at: usize) -> bool
    requires { at + WIDE ≤ length bytes.now }
    ensures { result ≡ true → WIDE ≡ prefix_len (λ b. not (is_mark b)) (slice_range bytes.now at (at + WIDE)) }
{
    let lanes = u8x64::from_slice(&bytes[at..]);
    !lanes.simd_ge(u8x64::splat(128)).any()
}

/// Returns the meaning of the byte after an ESC.
pub fn meant(byte: u8) -> u8
    ensures { result ≡ meant_of byte }
{
    match byte {
        ESC_END => END,
        ESC_ESC => ESC,
        _ => byte,
    }
}
