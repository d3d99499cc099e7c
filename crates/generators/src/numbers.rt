//! Numbers as text.

ghost use Rattle.std.specs.Prelude.{◌≡◌, ℕ, ◌+◌, ◌++◌, ◌<◌, ◌≤◌, ◌-◌, ◌^◌, List, decimal, drop, length, take};
ghost use Rattle.generators.specs.Parts.{HoldsPart};
ghost use Rattle.generators.specs.Text.{in_ten_places, counter_line};

use crate::parts::{Place, put};
use crate::written::Written;

/// The number of places of a number.
pub(crate) const PLACES: usize = 10;

/// The length of a counter's line.
const LINE_LEN: usize = PLACES + 1;

/// Returns the number of digits.
#[inline(always)]
pub(crate) fn decimal_len(number: u32) -> usize
    ensures length { result ≡ length (decimal number) }
    ensures bound { result ≤ 10 }
{
    let mut left = number;
    let mut len = 0;
    while left >= 1000 {
        left /= 1000;
        len += 3;
    }
    if left < 10 {
        return len + 1;
    }
    if left < 100 {
        return len + 2;
    }
    len + 3
}

/// Returns the number of digits of a byte.
#[inline(always)]
pub(crate) fn byte_len(number: u8) -> usize
    ensures length { result ≡ length (decimal number) }
    ensures bound { result ≤ 3 }
{
    1 + usize::from(number >= 10) + usize::from(number >= 100)
}

/// Returns the length of a number in ten places.
pub(crate) fn in_ten_places_len(_number: u32) -> usize
    ensures length { result ≡ length (in_ten_places _number) }
    ensures places { result ≡ 10 }
{
    PLACES
}

/// Writes the digits of a number to the end of ten places, and returns the first place that they take.
#[inline(never)]
pub(crate) fn put_digits(places: &mut [u8; PLACES], number: u32) -> usize
    ensures within { result < 10 }
    ensures digits { drop result places.new ≡ decimal number }
    ensures kept { take result places.new ≡ take result places.old }
{
    let mut at = PLACES - 1;
    let mut left = number;
    while left >= 10 {
        places[at] = b'0' + (left % 10) as u8;
        left /= 10;
        at -= 1;
    }
    places[at] = b'0' + left as u8;
    at
}

/// Returns a number in ten places, right-aligned and filled with spaces.
#[inline(never)]
fn in_ten(number: u32) -> [u8; PLACES]
    ensures { result ≡ in_ten_places number }
{
    let mut text = [b' '; PLACES];
    put_digits(&mut text, number);
    text
}

/// Returns a number in ten places, and the end of the line.
fn in_line(number: u32) -> [u8; LINE_LEN]
    ensures { result ≡ counter_line number }
{
    let mut line = [b'\n'; LINE_LEN];
    line[..PLACES].copy_from_slice(&in_ten(number));
    line
}

/// Appends a number in ten places.
#[inline(always)]
pub(crate) fn put_in_ten_places(place: Place, out: &mut [u8], number: u32) -> Place
    requires { place.so_far < 2 ^ 63 - 10 }
    ensures at { result.at ≡ place.at }
    ensures so_far { result.so_far ≡ place.so_far + length (in_ten_places number) }
    ensures ten { length (in_ten_places number) ≡ 10 }
    ensures part { (text : List ℕ) → HoldsPart text place out.old → HoldsPart (text ++ in_ten_places number) result out.new }
{
    put(place, out, &in_ten(number))
}

/// A counter, on a line of its own.
impl Written for u32 {
    ghost text = { counter_line };

    ghost longest = { 11 };

    fn len(&self) -> usize {
        let _number = *self;
        LINE_LEN
    }

    fn put(&self, place: Place, out: &mut [u8]) -> Place {
        put(place, out, &in_line(*self))
    }
}
