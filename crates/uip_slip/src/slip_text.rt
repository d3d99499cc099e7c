//! Writes the SLIP text of a datagram into an area of the caller's (RFC 1055). Short runs between marks go byte by byte; the end of a long
//! run is searched for and the run copied as a whole. This bounds the cost of the worst input.

ghost use Rattle.std.specs.Prelude.{◌≡◌, ◌≤◌, ◌<◌, ◌+◌, ◌*◌, ◌/◌, ◌%◌, ◌++◌, [], ◌∷◌, length, take};
ghost use Rattle.uip_slip.specs.Text.{PutsPrefix, escaped, escaped_byte};

use crate::plain_runs::put_plain;

/// This many bytes go one by one if marks are close together.
const CHUNK: usize = 32;

/// A shorter run has marks close to it.
const SHORT_RUN: usize = 8;

/// The number of bytes of a piece that were put, and the length of the text.
#[derive(Clone, Copy, Debug)]
struct Run {
    count: usize,
    len: usize,
}

/// Appends bytes as they are to a text of `len` bytes. Returns its new length.
fn put(out: &mut [u8], len: usize, piece: &[u8]) -> usize
    requires { len + length piece.now ≤ length out.old }
    ensures long { length out.new ≡ length out.old }
    ensures end { result ≡ len + length piece.now }
    ensures text { take result out.new ≡ take len out.old ++ piece.now }
{
    let end = len + piece.len();
    out[len..end].copy_from_slice(piece);
    end
}

/// The text of an END of a datagram, as one number with the first byte lowest.
const END_TEXT: u16 = 0xDCDB;

/// The text of an ESC of a datagram.
const ESC_TEXT: u16 = 0xDDDB;

/// The text of each byte of a datagram: two bytes, or the byte and a zero that is no part of it.
static TEXTS: [u16; 256] = [
    0, 1, 2, 3, 4, 5, 6, 7, 8, 9, 10, 11, 12, 13, 14, 15, 16, 17, 18, 19, 20, 21, 22, 23, 24, 25,
    26, 27, 28, 29, 30, 31, 32, 33, 34, 35, 36, 37, 38, 39, 40, 41, 42, 43, 44, 45, 46, 47, 48, 49,
    50, 51, 52, 53, 54, 55, 56, 57, 58, 59, 60, 61, 62, 63, 64, 65, 66, 67, 68, 69, 70, 71, 72, 73,
    74, 75, 76, 77, 78, 79, 80, 81, 82, 83, 84, 85, 86, 87, 88, 89, 90, 91, 92, 93, 94, 95, 96, 97,
    98, 99, 100, 101, 102, 103, 104, 105, 106, 107, 108, 109, 110, 111, 112, 113, 114, 115, 116,
    117, 118, 119, 120, 121, 122, 123, 124, 125, 126, 127, 128, 129, 130, 131, 132, 133, 134, 135,
    136, 137, 138, 139, 140, 141, 142, 143, 144, 145, 146, 147, 148, 149, 150, 151, 152, 153, 154,
    155, 156, 157, 158, 159, 160, 161, 162, 163, 164, 165, 166, 167, 168, 169, 170, 171, 172, 173,
    174, 175, 176, 177, 178, 179, 180, 181, 182, 183, 184, 185, 186, 187, 188, 189, 190, 191,
    END_TEXT, 193, 194, 195, 196, 197, 198, 199, 200, 201, 202, 203, 204, 205, 206, 207, 208, 209,
    210, 211, 212, 213, 214, 215, 216, 217, 218, ESC_TEXT, 220, 221, 222, 223, 224, 225, 226, 227,
    228, 229, 230, 231, 232, 233, 234, 235, 236, 237, 238, 239, 240, 241, 242, 243, 244, 245, 246,
    247, 248, 249, 250, 251, 252, 253, 254, 255,
];

/// Returns the text of a byte of a datagram as one number, whose first byte is the lowest. Below 256 it is one byte, else two.
fn text_of(byte: u8) -> u16
    ensures one { result < 256 → escaped_byte byte ≡ result ∷ [] }
    ensures two { 256 ≤ result → escaped_byte byte ≡ result % 256 ∷ result / 256 ∷ [] }
{
    TEXTS[byte as usize]
}

/// Appends a byte of a datagram, escaped if need be. The byte after its text may change too.
fn put_byte(out: &mut [u8], len: usize, byte: u8) -> usize
    requires { len + 2 ≤ length out.old }
    ensures long { length out.new ≡ length out.old }
    ensures bound { result ≤ len + 2 }
    ensures text { take result out.new ≡ take len out.old ++ escaped_byte byte }
{
    let text = text_of(byte);
    put(out, len, &text.to_le_bytes());
    if text < 256 { len + 1 } else { len + 2 }
}

/// Appends bytes of a datagram one by one to a text of `len` bytes at the start of an area. Returns its new length. A byte after the text
/// may change too.
pub fn put_bytes(out: &mut [u8], len: usize, piece: &[u8]) -> usize
    requires room { len + 2 * length piece.now ≤ length out.old }
    ensures long { length out.new ≡ length out.old }
    ensures bound { result ≤ len + 2 * length piece.now }
    ensures text { take result out.new ≡ take len out.old ++ escaped piece.now }
{
    let mut end = len;
    for byte in piece {
        end = put_byte(out, end, *byte);
    }
    end
}

/// Appends the bytes before the next mark, and that mark if it is there.
fn put_run(out: &mut [u8], len: usize, piece: &[u8]) -> Run
    requires some { 0 < length piece.now }
    requires room { len + 2 * length piece.now ≤ length out.old }
    ensures { PutsPrefix piece.now len out.old result.count result.len out.new }
{
    let plain = put_plain(out, len, piece);
    let end = len + plain;
    if plain == piece.len() {
        return Run {
            count: plain,
            len: end,
        };
    }
    let marked = put_byte(out, end, piece[plain]);
    Run {
        count: plain + 1,
        len: marked,
    }
}

/// Appends a prefix of the bytes: a chunk, byte by byte, if marks are close together, else a run with the mark after it.
fn put_prefix(out: &mut [u8], len: usize, piece: &[u8], is_dense: bool) -> Run
    requires some { 0 < length piece.now }
    requires room { len + 2 * length piece.now ≤ length out.old }
    ensures { PutsPrefix piece.now len out.old result.count result.len out.new }
{
    if !is_dense {
        return put_run(out, len, piece);
    }
    if let Some((chunk, _)) = piece.split_first_chunk::<CHUNK>() {
        let end = put_bytes(out, len, chunk);
        return Run {
            count: CHUNK,
            len: end,
        };
    }
    let end = put_bytes(out, len, piece);
    Run {
        count: piece.len(),
        len: end,
    }
}

/// Returns whether marks are close together after a prefix of `count` bytes whose text has `grown` bytes: a run was short, or a chunk has
/// two.
fn is_dense_after(was_dense: bool, count: usize, grown: usize) -> bool {
    if was_dense {
        grown > count.saturating_add(1)
    } else {
        count < SHORT_RUN
    }
}

/// Appends bytes of a datagram, escaped, to a text of `len` bytes at the start of an area. Returns its new length.
pub fn put_escaped(out: &mut [u8], len: usize, piece: &[u8]) -> usize
    requires room { len + 2 * length piece.now ≤ length out.old }
    ensures long { length out.new ≡ length out.old }
    ensures bound { result ≤ len + 2 * length piece.now }
    ensures text { take result out.new ≡ take len out.old ++ escaped piece.now }
{
    let mut rest = piece;
    let mut end = len;
    let mut is_dense = false;
    while !rest.is_empty() {
        let run = put_prefix(out, end, rest, is_dense);
        is_dense = is_dense_after(is_dense, run.count, run.len.saturating_sub(end));
        end = run.len;
        rest = &rest[run.count..];
    }
    end
}
