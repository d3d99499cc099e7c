//! Values with a text, written one after another.

ghost use Rattle.std.specs.Prelude.{◌≡◌, ℕ, ◌+◌, ◌*◌, ◌++◌, ◌≤◌, ◌<◌, ◌^◌, List, flat_map, length};
ghost use Rattle.generators.specs.Parts.{HoldsPart};

use crate::parts::Place;

/// A value that has a text.
pub(crate) trait Written {
    /// Its text.
    ghost text: { Self → List ℕ };

    /// The greatest length of a text, in bytes.
    ghost longest: { ℕ };

    /// Returns the length of its text, in bytes.
    fn len(&self) -> usize
        ensures length { result ≡ length (text self.now) }
        ensures bound { result ≤ longest };

    /// Appends its text to the text so far.
    fn put(&self, place: Place, out: &mut [u8]) -> Place
        requires short { place.so_far + longest < 2 ^ 63 }
        ensures at { result.at ≡ place.at }
        ensures so_far { result.so_far ≡ place.so_far + length (text self.now) }
        ensures bound { length (text self.now) ≤ longest }
        ensures part { (before : List ℕ) → HoldsPart before place out.old → HoldsPart (before ++ text self.now) result out.new };
}

/// Appends the text of each value in turn.
pub(crate) fn put_all<T: Written>(items: &[T], place: Place, out: &mut [u8]) -> Place
    requires { place.so_far + T.longest * length items.now < 2 ^ 63 }
    ensures at { result.at ≡ place.at }
    ensures so_far { result.so_far ≡ place.so_far + length (flat_map T.text items.now) }
    ensures bound { length (flat_map T.text items.now) ≤ T.longest * length items.now }
    ensures part { (before : List ℕ) → HoldsPart before place out.old → HoldsPart (before ++ flat_map T.text items.now) result out.new }
{
    let mut come = place;
    for item in items {
        come = put_needed(item, come, out);
    }
    come
}

/// Appends the text of a value. If the buffer holds none of it, nothing is made.
fn put_needed<T: Written>(item: &T, place: Place, out: &mut [u8]) -> Place
    requires { place.so_far + T.longest < 2 ^ 63 }
    ensures at { result.at ≡ place.at }
    ensures so_far { result.so_far ≡ place.so_far + length (T.text item.now) }
    ensures bound { length (T.text item.now) ≤ T.longest }
    ensures part { (before : List ℕ) → HoldsPart before place out.old → HoldsPart (before ++ T.text item.now) result out.new }
{
    let is_after = place.so_far.saturating_sub(place.at) >= out.len();
    if is_after || place.so_far < place.at {
        let so_far = place.so_far + item.len();
        if is_after || so_far <= place.at {
            return Place {
                at: place.at,
                so_far,
            };
        }
    }
    item.put(place, out)
}

/// Returns the length of the texts of all values, in bytes.
pub(crate) fn len_all<T: Written>(items: &[T]) -> usize
    requires { T.longest * length items.now < 2 ^ 63 }
    ensures length { result ≡ length (flat_map T.text items.now) }
    ensures bound { result ≤ T.longest * length items.now }
{
    let mut len = 0;
    for item in items {
        len += item.len();
    }
    len
}
