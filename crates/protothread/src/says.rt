//! Threads that send text.

ghost use Rattle.std.specs.Prelude.{◌≡◌, ℕ, ◌<◌, ◌≤◌, ◌^◌, List, length, take, drop};

/// A thread that sends a text, piece by piece, from the bytes of its world. Filling changes nothing, so a piece can be sent
/// again; only `advance` moves the resume point.
pub trait Says {
    /// The value fits the world.
    ghost fits: { Self → List ℕ → Type 0 };

    /// The text that is left.
    ghost text_left: { Self → List ℕ → List ℕ };

    /// Returns the length of the text that is left, in bytes.
    fn left(&self, world: &[u8]) -> usize
        requires fits { fits self.now world.now }
        requires short { length (text_left self.now world.now) < 2 ^ 32 }
        ensures { result ≡ length (text_left self.now world.now) };

    /// Writes the prefix of the text that is left, to fill `out`.
    fn fill(&self, world: &[u8], out: &mut [u8])
        requires fits { fits self.now world.now }
        requires short { length (text_left self.now world.now) < 2 ^ 32 }
        requires enough { length out.old ≤ length (text_left self.now world.now) }
        ensures { out.new ≡ take (length out.old) (text_left self.now world.now) };

    /// Drops the first `count` bytes of the text that is left.
    fn advance(&mut self, world: &[u8], count: usize)
        requires fits { fits self.old world.now }
        requires short { length (text_left self.old world.now) < 2 ^ 32 }
        requires enough { count ≤ length (text_left self.old world.now) }
        ensures fits { fits self.new world.now }
        ensures rest { text_left self.new world.now ≡ drop count (text_left self.old world.now) };
}
