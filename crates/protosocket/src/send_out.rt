//! Bytes of the world, sent unchanged.

ghost use Rattle.std.specs.Prelude.{◌≤◌, length, slice_range};

use protothread::{Run, Says};

/// Sends the text of its run.
#[derive(Clone, Copy, Drop)]
pub struct SendOut {
    pub run: Run,
}

impl Says for SendOut {
    ghost fits = { λ s w. (s.run.at ≤ s.run.end) × (s.run.end ≤ length w) };

    ghost text_left = { λ s w. slice_range w s.run.at s.run.end };

    fn left(&self, world: &[u8]) -> usize {
        self.run.left(world)
    }

    fn fill(&self, world: &[u8], out: &mut [u8]) {
        self.run.fill(world, out);
    }

    fn advance(&mut self, world: &[u8], count: usize) {
        self.run.advance(world, count);
    }
}
