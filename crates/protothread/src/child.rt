//! A thread and the child that it waits for.

ghost use Rattle.std.specs.Prelude.{◌++◌};
ghost use Rattle.protothread.specs.Child.{ChildFits, child_text};

use crate::both::{advance_both, fill_both};
use crate::says::Says;

/// Sends the text of the child, if there is one, and then that of the parent.
#[derive(Drop)]
pub struct Child<P, C> {
    pub parent: P,
    pub child: Option<C>,
}

impl<P: Says, C: Says> Says for Child<P, C> {
    ghost fits = { λ s w. P.fits s.parent w × ChildFits C.fits s.child w };

    ghost text_left = { λ s w. child_text C.text_left s.child w ++ P.text_left s.parent w };

    fn left(&self, world: &[u8]) -> usize {
        match &self.child {
            Some(child) => child.left(world) + self.parent.left(world),
            None => self.parent.left(world),
        }
    }

    fn fill(&self, world: &[u8], out: &mut [u8]) {
        match &self.child {
            Some(child) => fill_both(child, &self.parent, world, out),
            None => self.parent.fill(world, out),
        }
    }

    fn advance(&mut self, world: &[u8], count: usize) {
        match &mut self.child {
            Some(child) => advance_both(child, &mut self.parent, world, count),
            None => self.parent.advance(world, count),
        }
    }
}
