//! The texts of single records, for a record type of a crate above.

ghost use Rattle.std.specs.Prelude.{◌≡◌, ◌+◌, ◌*◌, ◌≤◌, ◌<◌, ◌^◌, drop, flat_map, length, take};
ghost use Rattle.generators.specs.Prelude.{rows_in, counter_line, in_ten_places, row_text};

use crate::numbers::{in_ten_places_len, put_in_ten_places};
use crate::packed_rows::PackedRows;
use crate::parts::Place;
use crate::written::{Written, len_all, put_all};

/// Returns the length of a number in ten places.
pub fn number_len(number: u32) -> usize
    ensures length { result ≡ length (in_ten_places number) }
    ensures short { result ≤ 4200 }
{
    in_ten_places_len(number)
}

/// Writes a number in ten places from offset `at` on, to fill `out`.
pub fn fill_number(number: u32, at: usize, out: &mut [u8])
    requires { at + length out.old ≤ length (in_ten_places number) }
    ensures { out.new ≡ take (length out.old) (drop at (in_ten_places number)) }
{
    let place = Place { at, so_far: 0 };
    put_in_ten_places(place, out, number);
}

/// Writes the texts of all values from offset `at` on, to fill `out`.
fn fill_all<T: Written>(items: &[T], at: usize, out: &mut [u8])
    requires fits { T.longest * length items.now < 2 ^ 63 }
    requires enough { at + length out.old ≤ length (flat_map T.text items.now) }
    ensures { out.new ≡ take (length out.old) (drop at (flat_map T.text items.now)) }
{
    let place = Place { at, so_far: 0 };
    put_all(items, place, out);
}

/// Returns the length of the lines of the counters.
pub fn counters_len(counters: &[u32; 20]) -> usize
    ensures length { result ≡ length (flat_map counter_line counters.now) }
    ensures short { result ≤ 4200 }
{
    len_all(counters)
}

/// Writes the lines of the counters from offset `at` on, to fill `out`.
pub fn fill_counters(counters: &[u32; 20], at: usize, out: &mut [u8])
    requires { at + length out.old ≤ length (flat_map counter_line counters.now) }
    ensures { out.new ≡ take (length out.old) (drop at (flat_map counter_line counters.now)) }
{
    fill_all(counters, at, out);
}

/// Returns the length of the text of packed rows.
pub fn rows_len(rows: &PackedRows) -> usize
    ensures length { result ≡ length (flat_map row_text (rows_in rows.now)) }
    ensures short { result ≤ 4200 }
{
    len_all(rows.packed())
}

/// Writes the text of packed rows from offset `at` on, to fill `out`.
pub fn fill_rows(rows: &PackedRows, at: usize, out: &mut [u8])
    requires { at + length out.old ≤ length (flat_map row_text (rows_in rows.now)) }
    ensures { out.new ≡ take (length out.old) (drop at (flat_map row_text (rows_in rows.now))) }
{
    fill_all(rows.packed(), at, out);
}
