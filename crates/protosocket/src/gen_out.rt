//! Generated text, sent from its record.

ghost use Rattle.std.specs.Prelude.{◌≤◌, drop, length};
ghost use Rattle.generators.specs.Prelude.{capture_text};

use generators::{Capture, fill_at, text_len};
use protothread::Says;

/// Sends the text of its capture from offset `at` on. It does not read the world.
#[derive(Drop)]
pub struct GenOut {
    pub capture: Capture,
    pub at: u32,
}

impl Says for GenOut {
    ghost fits = { λ s w. s.at ≤ length (capture_text s.capture) };

    ghost text_left = { λ s w. drop s.at (capture_text s.capture) };

    fn left(&self, _world: &[u8]) -> usize {
        text_len(&self.capture) - self.at as usize
    }

    fn fill(&self, _world: &[u8], out: &mut [u8]) {
        fill_at(&self.capture, self.at as usize, out);
    }

    fn advance(&mut self, _world: &[u8], count: usize) {
        // The text has at most 4200 bytes, so the offset fits in 32 bits.
        self.at = (text_len(&self.capture).min(self.at as usize + count)) as u32;
    }
}
