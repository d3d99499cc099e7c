//! A run of bytes.

ghost use Rattle.std.specs.Prelude.{◌≤◌, length, slice_range};

use crate::says::Says;
use uip_wire::copy_bytes;

/// Sends the bytes of its world from offset `at` up to before offset `end`.
#[derive(Clone, Copy, Drop)]
pub struct Run {
    pub at: u32,
    pub end: u32,
}

impl Says for Run {
    ghost fits = { λ s w. (s.at ≤ s.end) × (s.end ≤ length w) };

    ghost text_left = { λ s w. slice_range w s.at s.end };

    fn left(&self, _world: &[u8]) -> usize {
        (self.end - self.at) as usize
    }

    fn fill(&self, world: &[u8], out: &mut [u8]) {
        let at = self.at as usize;
        let end = at + out.len();
        copy_bytes(out, &world[at..end]);
    }

    fn advance(&mut self, _world: &[u8], count: usize) {
        self.at += count as u32;
    }
}
