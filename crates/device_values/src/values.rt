//! The values of a device.

ghost use Rattle.std.specs.Prelude.{◌≡◌, ◌<◌, ◌≤◌, ◌-◌, ◌∷◌, ◌++◌, All, length, replicate, take};
ghost use Rattle.app_events.specs.Prelude.{IsByte};
ghost use Rattle.device_values.specs.Values.{no_values, value_given, value_named, value_of};

use crate::kept::Kept;
use uip_wire::numeral;

/// The number of values.
pub const MOST_VALUES: usize = 16;

/// The most bytes of a value.
pub const LONGEST_VALUE: usize = 32;

/// The values of a device: for each of sixteen values 33 bytes, the first of which is its length.
#[derive(Drop)]
pub struct Values {
    pub bytes: [u8; 528],
}

impl Values {
    /// Returns values of which none is set.
    pub fn new() -> Values
        ensures { result.bytes ≡ no_values }
    {
        Values { bytes: [0; 528] }
    }

    /// Sets the value of a number to this text, whatever it was before. The others are unchanged.
    pub fn give(&mut self, number: usize, text: &[u8])
        requires number { number < 16 }
        requires short { length text.now ≤ 32 }
        ensures { self.new.bytes ≡ value_given number text.now self.old.bytes }
    {
        let from = 33 * number;
        self.bytes[from..from + 33].copy_from_slice(&row_of(text));
    }
}

/// Returns a value as it is stored: its length, its bytes, and zeros.
fn row_of(text: &[u8]) -> [u8; 33]
    requires { length text.now ≤ 32 }
    ensures { result ≡ length text.now ∷ text.now ++ replicate (32 - length text.now) 0 }
{
    let mut row = [0; 33];
    row[0] = text.len() as u8;
    row[1..text.len() + 1].copy_from_slice(text);
    row
}

/// Returns the bytes of the value whose number the argument is; none if it is no number of a value.
#[inline(never)]
pub(crate) fn kept_value(values: &Values, argument: &[u8]) -> Kept
    ensures { take result.len result.bytes ≡ value_named values.now.bytes argument.now }
{
    match numeral(argument) {
        Some(number) => {
            if number < MOST_VALUES as u64 {
                value_at(values, number as usize)
            } else {
                no_value()
            }
        }
        None => no_value(),
    }
}

/// Returns no bytes.
fn no_value() -> Kept
    ensures { result.len ≡ 0 }
{
    Kept {
        len: 0,
        bytes: [0; 32],
    }
}

/// Returns the bytes of the value of that number.
fn value_at(values: &Values, number: usize) -> Kept
    requires { number < 16 }
    ensures { take result.len result.bytes ≡ value_of values.now.bytes number }
{
    is_bytes(&values.bytes);
    let at = 33 * number;
    let mut bytes = [0; 32];
    bytes.copy_from_slice(&values.bytes[at + 1..at + 33]);
    Kept {
        len: values.bytes[at].min(32),
        bytes,
    }
}

/// States that a text consists of bytes.
fn is_bytes(text: &[u8])
    ensures { All IsByte text.now }
{}
