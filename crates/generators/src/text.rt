//! The text of a capture record, from any offset.

ghost use Rattle.std.specs.Prelude.{◌≡◌, ◌+◌, ◌≤◌, [], drop, length, take};
ghost use Rattle.generators.specs.Prelude.{HoldsPart, capture_text};

use crate::capture::Capture;
use crate::numbers::{in_ten_places_len, put_in_ten_places};
use crate::parts::Place;
use crate::rows::rows_of;
use crate::written::{len_all, put_all};

/// Returns the length of the capture's text, in bytes. Whatever its numbers are, it is at most 4,200 bytes.
/// [add: function] The length and the text of its capture record.
pub fn text_len(capture: &Capture) -> usize
    ensures length { result ≡ length (capture_text capture.now) }
    ensures short { result ≤ 4200 }
{
    match capture {
        Capture::Empty => 0,
        Capture::Hits(hits) => in_ten_places_len(*hits),
        Capture::Ticks(ticks) => in_ten_places_len(*ticks),
        Capture::Net(counters) => len_all(counters),
        Capture::Rows(rows) => len_all(rows_of(rows)),
    }
}

/// Writes the capture's text from offset `at` on, to fill `out`.
pub fn fill_at(capture: &Capture, at: usize, out: &mut [u8])
    requires { at + length out.old ≤ length (capture_text capture.now) }
    ensures { out.new ≡ take (length out.old) (drop at (capture_text capture.now)) }
{
    let place = Place { at, so_far: 0 };
    put_text(place, out, capture);
}

/// Appends the capture's text to an empty text.
fn put_text(place: Place, out: &mut [u8], capture: &Capture) -> Place
    requires { place.so_far ≡ 0 }
    ensures so_far { result.so_far ≡ length (capture_text capture.now) }
    ensures short { result.so_far ≤ 4200 }
    ensures at { result.at ≡ place.at }
    ensures part { HoldsPart [] place out.old → HoldsPart (capture_text capture.now) result out.new }
{
    match capture {
        Capture::Empty => place,
        Capture::Hits(hits) => put_in_ten_places(place, out, *hits),
        Capture::Ticks(ticks) => put_in_ten_places(place, out, *ticks),
        Capture::Net(counters) => put_all(counters, place, out),
        Capture::Rows(rows) => put_all(rows_of(rows), place, out),
    }
}
