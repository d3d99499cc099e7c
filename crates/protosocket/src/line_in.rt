//! A word of a request line, received piece by piece.

ghost use Rattle.std.specs.Prelude.{◌≡◌, ◌+◌, ◌++◌, ◌||◌, length, nat_lt, position, take};
ghost use Rattle.std.specs.List.{before_first, list_any};
ghost use Rattle.protosocket.specs.Line.{after, part_taken, fresh, is_query_mark, is_stop, longest_name, with_word, word_of};
ghost use Rattle.protosocket.specs.Lemmas.Reception.{takes_prefix, takes_all, takes_nothing, receives_joined};

use crate::stops::Stops;
use arrayvec::ArrayVec;
use protothread::Hears;
use std::marker::Model;

/// The greatest length of a name that is stored, in bytes. No name of a site is longer.
const LONGEST_NAME: usize = 64;

/// Receives bytes up to and with the first stop, and stores the prefix of the name before the first `?`.
#[derive(Drop)]
pub struct LineIn {
    /// The first bytes of the name.
    pub name: ArrayVec<u8, LONGEST_NAME>,
    /// The name has more bytes than are stored.
    pub over: bool,
    /// A `?` was received.
    pub query: bool,
    /// The stop was received.
    pub done: bool,
    /// The bytes that end the word.
    pub stops: Stops,
}

impl Model for LineIn {
    ghost use Rattle.protosocket.specs.Line.{Line};

    ghost Value = { Line };

    ghost view = { λ l. record { name = l.name.items; over = l.over; query = l.query; done = l.done; stops = l.stops } };
}

/// Returns the part of the piece before the first stop, and whether there is a stop.
#[tactic(auto, using(crate::proofs::Cuts::cut_at, crate::proofs::Cuts::found, crate::proofs::Cuts::missing, crate::proofs::Cuts::whole))]
fn until_stop(piece: &[u8], stops: Stops) -> (&[u8], bool)
    ensures word { result.0.now ≡ word_of stops piece.now }
    ensures stop { result.1 ≡ list_any (is_stop stops) piece.now }
{
    match stops.place_in(piece) {
        Some(end) => (&piece[..end], true),
        None => (piece, false),
    }
}

/// Returns the offset of the first `?`.
fn mark_in(word: &[u8]) -> Option<usize>
    ensures { result ≡ position is_query_mark word.now }
{
    word.iter().position(|byte| *byte == b'?')
}

/// Returns the part of the word before the first `?`, and whether there is one.
#[tactic(auto, using(crate::proofs::Cuts::cut_at, crate::proofs::Cuts::found, crate::proofs::Cuts::missing, crate::proofs::Cuts::whole))]
fn until_mark(word: &[u8]) -> (&[u8], bool)
    ensures name { result.0.now ≡ before_first is_query_mark word.now }
    ensures mark { result.1 ≡ list_any is_query_mark word.now }
{
    match mark_in(word) {
        Some(end) => (&word[..end], true),
        None => (word, false),
    }
}

/// Appends as much as there is room for, and returns whether there is more.
fn keep(name: &mut ArrayVec<u8, LONGEST_NAME>, part: &[u8]) -> bool
    ensures name { name.new.items ≡ take longest_name (name.old.items ++ part.now) }
    ensures over { result ≡ nat_lt longest_name (length (name.old.items ++ part.now)) }
{
    let room = name.remaining_capacity();
    let count = part.len().min(room);
    let _fits = name.try_extend_from_slice(&part[..count]);
    room < part.len()
}

impl LineIn {
    /// Returns the thread before any byte.
    pub fn new(stops: Stops) -> LineIn
        ensures { result ≡ fresh stops }
    {
        LineIn {
            name: ArrayVec::new(),
            over: false,
            query: false,
            done: false,
            stops,
        }
    }

    /// Receives further bytes of the word.
    fn hear(&mut self, word: &[u8])
        ensures { self.new ≡ with_word self.old word.now }
    {
        let (prefix, marked) = until_mark(word);
        let part = if self.query { &word[..0] } else { prefix };
        let more = keep(&mut self.name, part);
        self.over = self.over || more;
        self.query = self.query || marked;
    }
}

impl Hears for LineIn {
    ghost is_done = { λ l. l.done };

    ghost after = { after };

    ghost taken = { part_taken };

    #[inline(never)]
    fn feed(&mut self, piece: &[u8]) -> usize {
        if self.done {
            return 0;
        }
        let (word, ended) = until_stop(piece, self.stops);
        self.hear(word);
        self.done = ended;
        if ended { word.len() + 1 } else { word.len() }
    }

    fn done(&self) -> bool {
        self.done
    }

    ghost refines_a_prefix = { takes_prefix };

    ghost takes_all_or_is_done = { takes_all };

    ghost done_takes_nothing = { takes_nothing };

    ghost joined = { receives_joined };
}
