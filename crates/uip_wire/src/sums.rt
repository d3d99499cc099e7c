//! The checksum of RFC 791, computed eight bytes at a time (RFC 1071, section 2).

ghost use Rattle.std.specs.Prelude.{◌≡◌, ◌+◌, ◌-◌, ◌*◌, ◌%◌, ◌^◌, ◌<◌, ◌≤◌, ◌++◌, ℕ, drop, length};
ghost use Rattle.uip_wire.specs.Checksum.{OneByteDetected, checksum_of, folded, word_sum};
ghost use Rattle.uip_wire.specs.Sums.{swapped_sum};

use byteorder::{ByteOrder, LittleEndian};

/// Returns the checksum of RFC 791: the one's complement of the one's complement sum of the big-endian 16-bit words.
#[inline(always)]
pub fn checksum(bytes: &[u8]) -> u16
    ensures { result ≡ checksum_of bytes.now }
{
    65535 - ones_sum(bytes)
}

/// Returns the checksum of two pieces, one after the other. The first has an even number of bytes.
#[inline(always)]
pub fn checksum_joined(first: &[u8], second: &[u8]) -> u16
    requires { length first.now % 2 ≡ 0 }
    ensures { result ≡ checksum_of (first.now ++ second.now) }
{
    let swapped = fold(wide_sum(first) + wide_sum(second));
    65535 - (swapped % 256 * 256 + swapped / 256)
}

/// Two lists of bytes of the same length that differ in exactly one byte have different checksums.
pub fn one_byte_detected()
    ensures { OneByteDetected }
{}

/// Returns the one's complement sum of the words. It is that of the words with their bytes exchanged, with its own bytes exchanged, so no
/// word has to be swapped (RFC 1071, section 2 (B)).
#[inline(always)]
pub(crate) fn ones_sum(bytes: &[u8]) -> u16
    ensures { result ≡ folded (word_sum bytes.now) }
{
    let swapped = fold(wide_sum(bytes));
    swapped % 256 * 256 + swapped / 256
}

/// Returns the one's complement sum of two numbers.
#[inline(always)]
pub(crate) fn ones_add(one: u16, other: u16) -> u16
    ensures { result ≡ folded (one + other) }
{
    let sum = u32::from(one) + u32::from(other);
    if sum > 65535 {
        (sum - 65535) as u16
    } else {
        sum as u16
    }
}

/// Returns the sum of the words with their bytes exchanged, before its carries are added back. Eight bytes are added as one number, since
/// 2^16, 2^32 and 2^48 are 1 modulo 65535 (RFC 1071, section 2). A long piece goes by 32 bytes.
#[inline(always)]
fn wide_sum(bytes: &[u8]) -> u128
    ensures fits { result ≤ 2 ^ 61 * length bytes.now }
    ensures same { folded result ≡ folded (swapped_sum bytes.now) }
{
    let mut sum = 0u128;
    let mut rest = bytes;
    'longs: while rest.len() >= 32 {
        sum += block_sum(rest);
        rest = &rest[32..];
    }
    let (most, rest) = with_sixteen(sum, rest);
    let (all, rest) = with_eight(most, rest);
    all + tail_sum(rest)
}

/// Adds the first sixteen of fewer than 32 bytes to a sum, as two numbers, if there are as many. Returns the sum and the rest.
#[inline(always)]
fn with_sixteen(sum: u128, bytes: &[u8]) -> (u128, &[u8])
    requires room { sum < 2 ^ 124 }
    requires few { length bytes.now < 32 }
    ensures fits { result.0 + 2 ^ 61 * length result.1.now ≤ sum + 2 ^ 61 * length bytes.now }
    ensures rest { length result.1.now < 16 }
    ensures same { folded (result.0 + swapped_sum result.1.now) ≡ folded (sum + swapped_sum bytes.now) }
{
    if bytes.len() >= 16 {
        let two = u128::from(LittleEndian::read_u64(bytes))
            + u128::from(LittleEndian::read_u64(&bytes[8..]));
        return (sum + two, &bytes[16..]);
    }
    (sum, bytes)
}

/// Adds the first eight of fewer than sixteen bytes to a sum, as one number, if there are as many. Returns the sum and the rest.
#[inline(always)]
fn with_eight(sum: u128, bytes: &[u8]) -> (u128, &[u8])
    requires room { sum < 2 ^ 124 }
    requires few { length bytes.now < 16 }
    ensures fits { result.0 + 2 ^ 61 * length result.1.now ≤ sum + 2 ^ 61 * length bytes.now }
    ensures rest { length result.1.now < 8 }
    ensures same { folded (result.0 + swapped_sum result.1.now) ≡ folded (sum + swapped_sum bytes.now) }
{
    if bytes.len() >= 8 {
        let one = u128::from(LittleEndian::read_u64(bytes));
        return (sum + one, &bytes[8..]);
    }
    (sum, bytes)
}

/// Returns the first four of fewer than eight bytes as one number, if there are as many, and the rest.
#[inline(always)]
fn first_four(bytes: &[u8]) -> (u128, &[u8])
    requires { length bytes.now < 8 }
    ensures fits { result.0 ≤ 2 ^ 32 * length bytes.now }
    ensures rest { length result.1.now < 4 }
    ensures long { length result.1.now ≤ length bytes.now }
    ensures same { (before : ℕ) → folded (before + result.0 + swapped_sum result.1.now) ≡ folded (before + swapped_sum bytes.now) }
{
    if bytes.len() >= 4 {
        return (u128::from(LittleEndian::read_u32(bytes)), &bytes[4..]);
    }
    (0, bytes)
}

/// Returns the sum of fewer than eight bytes: of the first four as one number, and of the rest.
#[inline(always)]
fn tail_sum(bytes: &[u8]) -> u128
    requires { length bytes.now < 8 }
    ensures fits { result ≤ 2 ^ 61 * length bytes.now }
    ensures same { (before : ℕ) → folded (before + result) ≡ folded (before + swapped_sum bytes.now) }
{
    let (first, rest) = first_four(bytes);
    first + last_sum(rest)
}

/// Returns the sum of fewer than four bytes.
#[inline(always)]
fn last_sum(bytes: &[u8]) -> u128
    requires { length bytes.now < 4 }
    ensures fits { result ≤ 65535 * length bytes.now }
    ensures same { result ≡ swapped_sum bytes.now }
{
    match bytes {
        [high, low, last] => u128::from(*high) + u128::from(*low) * 256 + u128::from(*last),
        [high, low] => u128::from(*high) + u128::from(*low) * 256,
        [last] => u128::from(*last),
        _ => 0,
    }
}

/// Returns the sum of the first four numbers of eight bytes each.
#[inline(always)]
fn block_sum(bytes: &[u8]) -> u128
    requires { 32 ≤ length bytes.now }
    ensures fits { result < 2 ^ 66 }
    ensures same { (before : ℕ) → folded (before + result + swapped_sum (drop 32 bytes.now)) ≡ folded (before + swapped_sum bytes.now) }
{
    u128::from(LittleEndian::read_u64(bytes))
        + u128::from(LittleEndian::read_u64(&bytes[8..]))
        + u128::from(LittleEndian::read_u64(&bytes[16..]))
        + u128::from(LittleEndian::read_u64(&bytes[24..]))
}

const WORD64: u128 = 0x1_0000_0000_0000_0000;

const WORD32: u64 = 0x1_0000_0000;

const WORD16: u32 = 0x1_0000;

/// Adds the carries of a sum back to it. Its halves are added at each width, so nothing is divided: a processor of 32 bits has no division
/// of 64.
#[inline(always)]
fn fold(sum: u128) -> u16
    ensures { result ≡ folded sum }
{
    let long = add_long((sum / WORD64) as u64, (sum % WORD64) as u64);
    let word = add_word((long / WORD32) as u32, (long % WORD32) as u32);
    let most = word / WORD16 + word % WORD16;
    (most / WORD16 + most % WORD16) as u16
}

/// Adds two numbers, and the carry to their sum.
#[inline(always)]
fn add_long(one: u64, other: u64) -> u64
    ensures { folded result ≡ folded (one + other) }
{
    let sum = one.wrapping_add(other);
    if sum < one { sum + 1 } else { sum }
}

/// The same for numbers of 32 bits.
#[inline(always)]
fn add_word(one: u32, other: u32) -> u32
    ensures { folded result ≡ folded (one + other) }
{
    let sum = one.wrapping_add(other);
    if sum < one { sum + 1 } else { sum }
}
