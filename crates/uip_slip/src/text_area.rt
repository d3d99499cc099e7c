//! The area in which a text is gathered.

ghost use Rattle.std.specs.Prelude.{◌≡◌, ◌≤◌, ◌<◌, ◌+◌, ◌*◌, ◌++◌, [], ◌∷◌, length, take};
ghost use Rattle.uip_slip.specs.Text.{escaped};

use crate::slip_text::put_escaped;
use std::marker::Model;
use uip_wire::LARGEST_DATAGRAM;

/// The length of the longest SLIP text, in bytes: each byte escaped, and an END on both sides.
pub const LARGEST_TEXT: usize = 2 * LARGEST_DATAGRAM + 2;

/// An area in which text is gathered, so that it is written in one piece.
#[derive(Drop)]
pub struct TextArea {
    area: [u8; LARGEST_TEXT],
    len: usize,
}

impl Model for TextArea {
    ghost use Rattle.std.specs.Prelude.{◌≤◌, List, ℕ, take};
    ghost use Rattle.uip_slip.specs.declared.text_area.TheConstants.{LARGEST_TEXT};

    ghost Value = { List ℕ };

    ghost view = { λ text. take text.len text.area };

    ghost invariant = { λ text. text.len ≤ LARGEST_TEXT };
}

impl TextArea {
    pub fn new() -> TextArea
        ensures { result ≡ [] }
    {
        TextArea {
            area: [0; LARGEST_TEXT],
            len: 0,
        }
    }

    pub fn bytes(&self) -> &[u8]
        ensures { result.now ≡ self.now }
    {
        &self.area[..self.len]
    }

    pub fn clear(&mut self)
        ensures { self.new ≡ [] }
    {
        self.len = 0;
    }

    /// Appends a byte as it is.
    pub fn push(&mut self, byte: u8)
        requires { length self.old < LARGEST_TEXT }
        ensures { self.new ≡ self.old ++ byte ∷ [] }
    {
        self.area[self.len] = byte;
        self.len += 1;
    }

    /// Appends bytes of a datagram, escaped.
    pub fn put_escaped(&mut self, piece: &[u8])
        requires { length self.old + 2 * length piece.now ≤ LARGEST_TEXT }
        ensures { self.new ≡ self.old ++ escaped piece.now }
    {
        self.len = put_escaped(&mut self.area, self.len, piece);
    }
}
