//! Threads that receive bytes.

ghost use Rattle.std.specs.Prelude.{◌≡◌, ℕ, ◌≤◌, ◌+◌, ◌++◌, Bool, true, false, List, length};

/// A thread that receives bytes until it is done. It consumes a prefix of each piece, and all of it unless it becomes done.
pub trait Hears {
    ghost is_done: { Self → Bool };

    /// The value after a piece was fed.
    ghost after: { Self → List ℕ → Self };

    /// How many bytes of a piece it consumes.
    ghost taken: { Self → List ℕ → ℕ };

    /// Feeds a piece, and returns how many of its first bytes were consumed.
    fn feed(&mut self, piece: &[u8]) -> usize
        ensures after { self.new ≡ after self.old piece.now }
        ensures taken { result ≡ taken self.old piece.now };

    /// Returns whether nothing more is consumed.
    fn done(&self) -> bool
        ensures { result ≡ is_done self.now };

    ghost refines_a_prefix: { (s : Self) (piece : List ℕ) → taken s piece ≤ length piece };

    ghost takes_all_or_is_done: { (s : Self) (piece : List ℕ) → is_done (after s piece) ≡ false → taken s piece ≡ length piece };

    ghost done_takes_nothing: { (s : Self) (piece : List ℕ) → is_done s ≡ true → (taken s piece ≡ 0) × (after s piece ≡ s) };

    ghost joined: { (s : Self) (xs ys : List ℕ) → (after s (xs ++ ys) ≡ after (after s xs) ys)
        × (taken s (xs ++ ys) ≡ taken s xs + taken (after s xs) ys) };
}
