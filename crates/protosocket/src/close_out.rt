//! The end of a reply.

ghost use Rattle.std.specs.Prelude.{[]};

use protothread::Says;

/// Sends nothing: the connection is to be closed here.
#[derive(Clone, Copy, Drop)]
pub struct CloseOut;

impl Says for CloseOut {
    ghost fits = { λ s w. Unit {0} };

    ghost text_left = { λ s w. [] };

    fn left(&self, _world: &[u8]) -> usize {
        0
    }

    fn fill(&self, _world: &[u8], _out: &mut [u8]) {}

    fn advance(&mut self, _world: &[u8], _count: usize) {}
}
