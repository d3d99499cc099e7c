//! One thread after another.

ghost use Rattle.std.specs.Prelude.{◌++◌};

use crate::both::{advance_both, fill_both};
use crate::says::Says;

/// Sends the text of the first thread, and then that of the second.
#[derive(Clone, Copy, Drop)]
pub struct Then<A, B> {
    pub first: A,
    pub second: B,
}

impl<A: Says, B: Says> Says for Then<A, B> {
    ghost fits = { λ s w. A.fits s.first w × B.fits s.second w };

    ghost text_left = { λ s w. A.text_left s.first w ++ B.text_left s.second w };

    fn left(&self, world: &[u8]) -> usize {
        self.first.left(world) + self.second.left(world)
    }

    fn fill(&self, world: &[u8], out: &mut [u8]) {
        fill_both(&self.first, &self.second, world, out);
    }

    fn advance(&mut self, world: &[u8], count: usize) {
        advance_both(&mut self.first, &mut self.second, world, count);
    }
}
