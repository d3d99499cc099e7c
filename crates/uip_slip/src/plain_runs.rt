//! Copies the bytes before the next END or ESC.

ghost use Rattle.std.specs.Prelude.{◌≡◌, ◌≤◌, ◌+◌, ◌++◌, take, drop, length};
ghost use Rattle.uip_slip.specs.Frames.{IsPlainPrefix};

use crate::marks::{END, ESC, WORD, is_plain_word, plain_len};

/// Copies the bytes before the first END or ESC to the start of an area, and returns how many they are. It is not inlined, since decoder
/// and encoder both copy.
#[inline(never)]
pub fn copy_plain(out: &mut [u8], bytes: &[u8]) -> usize
    requires { length bytes.now ≤ length out.old }
    ensures long { length out.new ≡ length out.old }
    ensures prefix { IsPlainPrefix bytes.now result }
    ensures copied { take result out.new ≡ take result bytes.now }
    ensures rest { drop result out.new ≡ drop result out.old }
{
    if bytes.len() < WORD {
        return copy_plain_by_words(out, bytes);
    }
    let count = plain_len(bytes);
    out[..count].copy_from_slice(&bytes[..count]);
    count
}

/// The same in one pass, eight bytes at a time and the rest one by one. A processor without vectors copies all bytes by it.
#[inline(never)]
pub fn copy_plain_by_words(out: &mut [u8], bytes: &[u8]) -> usize
    requires { length bytes.now ≤ length out.old }
    ensures long { length out.new ≡ length out.old }
    ensures prefix { IsPlainPrefix bytes.now result }
    ensures copied { take result out.new ≡ take result bytes.now }
    ensures rest { drop result out.new ≡ drop result out.old }
{
    let mut at = 0;
    'words: while let Some(chunk) = bytes[at..].first_chunk::<WORD>() {
        let word = *chunk;
        if !is_plain_word(word) {
            break;
        }
        out[at..at + WORD].copy_from_slice(&word);
        at += WORD;
    }
    'rest: while at < bytes.len() {
        let byte = bytes[at];
        if byte == END || byte == ESC {
            return at;
        }
        out[at] = byte;
        at += 1;
    }
    at
}

/// Appends the bytes before the first END or ESC to a text of `len` bytes, and returns how many they are.
#[inline(always)]
pub fn put_plain(out: &mut [u8], len: usize, piece: &[u8]) -> usize
    requires { len + length piece.now ≤ length out.old }
    ensures long { length out.new ≡ length out.old }
    ensures prefix { IsPlainPrefix piece.now result }
    ensures text { take (len + result) out.new ≡ take len out.old ++ take result piece.now }
{
    copy_plain(&mut out[len..], piece)
}
