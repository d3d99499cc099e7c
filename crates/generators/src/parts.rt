//! Writes a slice of a long text into a short buffer, piece after piece, without the whole text in memory.

ghost use Rattle.std.specs.Prelude.{◌≡◌, ℕ, ◌+◌, ◌++◌, ◌<◌, ◌≤◌, ◌^◌, List, drop, length, take};
ghost use Rattle.generators.specs.Parts.{HoldsPart};

use uip_wire::copy_bytes;

/// The length of a text so far; the buffer holds its slice from offset `at` on.
#[derive(Clone, Copy, Drop)]
pub(crate) struct Place {
    /// The first offset of the slice.
    pub at: usize,
    /// The length of the text so far.
    pub so_far: usize,
}

/// Appends a piece to the text.
pub(crate) fn put(place: Place, out: &mut [u8], piece: &[u8]) -> Place
    requires { place.so_far + length piece.now < 2 ^ 63 }
    ensures at { result.at ≡ place.at }
    ensures so_far { result.so_far ≡ place.so_far + length piece.now }
    ensures part { (text : List ℕ) → HoldsPart text place out.old → HoldsPart (text ++ piece.now) result out.new }
{
    let from = place.at.saturating_sub(place.so_far).min(piece.len());
    let to = place.so_far.saturating_sub(place.at).min(out.len());
    let count = (piece.len() - from).min(out.len() - to);
    paste(out, to, &piece[from..from + count]);
    Place {
        at: place.at,
        so_far: place.so_far + piece.len(),
    }
}

/// Writes the piece at an offset of the buffer.
fn paste(out: &mut [u8], to: usize, piece: &[u8])
    requires { to + length piece.now ≤ length out.old }
    ensures { out.new ≡ take to out.old ++ piece.now ++ drop (to + length piece.now) out.old }
{
    copy_bytes(&mut out[to..to + piece.len()], piece);
}
