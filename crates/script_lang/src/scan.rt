//! Reads the pieces of a script, from any offset at which a piece can begin.

ghost use Rattle.std.specs.Prelude.{◌≡◌, ◌+◌, ◌<◌, ◌≤◌, ◌↔◌, ◌∷◌, [], length, nat_lt, IsTrue, IsNone, IfSome, MatchOption};
ghost use Rattle.script_lang.specs.Prelude.{IsPlace, is_directive_mark, before_cr, directive_within};
ghost use Rattle.script_lang.specs.Prelude.{piece_by, pieces_by, pieces_from, run_end, LiesWithin};

use crate::calls::Calls;
use crate::piece::{Found, FoundOf, PieceOf};
use crate::search::{byte_from, is_mark_at, mark_from, other_from};
use crate::words::word_in;

/// Returns the piece at `at`, or `None` at the end of the text. `at` is in a text run or at its end, at the start of a
/// directive, or the length of the text. Inside a text run the piece is the rest of the run.
#[inline(always)]
pub fn next_piece_of<F: Calls>(text: &[u8], at: usize) -> Option<FoundOf<F>>
    requires { IsPlace text.now at }
    ensures none { IsNone result ↔ (at ≡ length text.now) }

    // Read from offset to offset, these are the pieces of the whole text.
    ensures pieces { MatchOption result (pieces_by F.calling.named text.now at ≡ [])
        (λ found. pieces_by F.calling.named text.now at ≡ found ∷ pieces_by F.calling.named text.now found.next) }
    ensures within { IfSome result (λ found. LiesWithin (length text.now) found.piece) }
    ensures next { IfSome result (λ found. (at < found.next) × IsPlace text.now found.next) }
{
    if at == text.len() {
        return None;
    }
    Some(piece_from::<F>(text, at))
}

/// Does the same for a script that calls the functions of uIP.
#[inline(always)]
pub fn next_piece(text: &[u8], at: usize) -> Option<Found>
    requires { IsPlace text.now at }
    ensures none { IsNone result ↔ (at ≡ length text.now) }

    // Read from offset to offset, these are the pieces of the whole text.
    ensures pieces { MatchOption result (pieces_from text.now at ≡ [])
        (λ found. pieces_from text.now at ≡ found ∷ pieces_from text.now found.next) }
    ensures within { IfSome result (λ found. LiesWithin (length text.now) found.piece) }
    ensures next { IfSome result (λ found. (at < found.next) × IsPlace text.now found.next) }
{
    next_piece_of(text, at)
}

/// Returns whether a text run continues for more than `count` bytes after `at`. It reads no byte further away.
#[inline(always)]
pub fn runs_past(text: &[u8], at: usize, count: usize) -> bool
    requires { at < length text.now }
    ensures { result ≡ nat_lt (at + count) (run_end text.now at) }
{
    if text.len() - at <= count {
        return false;
    }
    let end = at + count + 1;
    mark_from(text, at, end) == end
}

/// Returns the piece at `at`.
#[inline(always)]
fn piece_from<F: Calls>(text: &[u8], at: usize) -> FoundOf<F>
    requires { at < length text.now }
    ensures piece { result ≡ piece_by F.calling.named text.now at }
    ensures within { LiesWithin (length text.now) result.piece }
{
    if is_mark_at(text, at) {
        return directive_from::<F>(text, at);
    }
    let next = mark_from(text, at, text.len());
    let piece = PieceOf::Text { at, len: next - at };
    FoundOf { piece, next }
}

/// Returns the directive that begins at `at`.
#[inline(always)]
fn directive_from<F: Calls>(text: &[u8], at: usize) -> FoundOf<F>
    requires mark { IsTrue (is_directive_mark text.now at) }
    requires inside { at + 2 ≤ length text.now }
    ensures piece { result ≡ piece_by F.calling.named text.now at }
    ensures within { LiesWithin (length text.now) result.piece }
{
    let inner = at + 2;
    let stop = byte_from(text, b'\n', inner, text.len());
    let end = without_cr(text, inner, stop);
    let piece = directive_in::<F>(text, inner, end);
    let next = text.len().min(stop + 1);
    FoundOf { piece, next }
}

/// Returns the end of the inner part that begins at `from`, if its line ends at `stop`: there, or at the CR before it.
#[inline(always)]
fn without_cr(text: &[u8], from: usize, stop: usize) -> usize
    requires ordered { from ≤ stop }
    requires inside { stop ≤ length text.now }
    ensures end { result ≡ before_cr text.now from stop }
    ensures low { from ≤ result }
    ensures high { result ≤ stop }
{
    if from < stop && text[stop - 1] == b'\r' {
        return stop - 1;
    }
    stop
}

/// Returns the directive with the inner part from `from` up to before `to`.
#[inline(always)]
fn directive_in<F: Calls>(text: &[u8], from: usize, to: usize) -> PieceOf<F>
    requires ordered { from ≤ to }
    requires inside { to ≤ length text.now }
    ensures piece { result ≡ directive_within F.calling.named text.now from to }
    ensures within { LiesWithin (length text.now) result }
{
    if from < to && text[from] == b':' {
        let name = word_in(text, from + 1, to);
        return PieceOf::Include {
            at: name.at,
            len: name.len,
        };
    }
    let start = other_from(text, b' ', from, to);
    let end = byte_from(text, b' ', start, to);
    let function = F::named(&text[start..end]);
    let argument = word_in(text, end, to);
    PieceOf::Call {
        function,
        at: argument.at,
        len: argument.len,
    }
}
