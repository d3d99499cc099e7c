ghost use Rattle.std.specs.Prelude.{◌≡◌, ◌++◌, ◌∷◌, [], ℕ, List, if◌then◌else◌};
ghost use Rattle.uip_wire.specs.Checksum.{checksum_of, folded, word_sum};
ghost use Rattle.uip_wire.specs.Sums.{sum_of};

use crate::sums::{ones_add, ones_sum};
use std::marker::Model;

/// The checksum of bytes that are added in pieces, cut anywhere.
#[derive(Drop)]
pub struct Summer {
    sum: u16,
    is_odd: bool,
}

impl Model for Summer {
    ghost use Rattle.uip_wire.specs.Sums.{PartSum};

    ghost Value = { PartSum };

    ghost view = { λ s. record { sum = s.sum; is_odd = s.is_odd } };
}

impl Summer {
    /// Returns the sum of no bytes.
    #[inline(always)]
    pub fn new() -> Summer
        ensures { result ≡ sum_of [] }
    {
        Summer {
            sum: 0,
            is_odd: false,
        }
    }

    /// Adds the next piece.
    #[inline(always)]
    pub fn add(&mut self, piece: &[u8])
        ensures { (bytes : List ℕ) → self.old ≡ sum_of bytes → self.new ≡ sum_of (bytes ++ piece.now) }
    {
        self.sum = ones_add(self.sum, sum_after(piece, self.is_odd));
        self.is_odd = self.is_odd != (piece.len() % 2 == 1);
    }

    /// Returns the checksum of all pieces so far, joined.
    #[inline(always)]
    pub fn finish(&self) -> u16
        ensures { (bytes : List ℕ) → self.now ≡ sum_of bytes → result ≡ checksum_of bytes }
    {
        65535 - self.sum
    }
}

/// Returns the one's complement sum that a piece adds after an even or an odd number of bytes. After an odd number its first byte is a low
/// one.
#[inline(always)]
fn sum_after(piece: &[u8], is_odd: bool) -> u16
    ensures { result ≡ folded (if is_odd then word_sum (0 ∷ piece.now) else word_sum piece.now) }
{
    match piece {
        [low, rest @ ..] if is_odd => ones_add(u16::from(*low), ones_sum(rest)),
        _ => ones_sum(piece),
    }
}
