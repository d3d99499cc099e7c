//! Where a word ends.

ghost use Rattle.std.specs.Prelude.{◌≡◌, position};
ghost use Rattle.protosocket.specs.Line.{is_stop};

/// The bytes that end a word (RFC 1945, section 5.1).
#[derive(Clone, Copy, Debug, Drop)]
pub enum Stops {
    /// A space.
    Space,
    /// A space, CR or LF.
    SpaceOrLine,
}

impl Stops {
    /// Returns whether the byte ends the word.
    fn is_stop(self, byte: u8) -> bool
        ensures { result ≡ is_stop self byte }
    {
        match self {
            Stops::Space => byte == b' ',
            Stops::SpaceOrLine => byte == b' ' || byte == b'\r' || byte == b'\n',
        }
    }

    /// Returns the offset of the first byte that ends the word.
    pub(crate) fn place_in(self, piece: &[u8]) -> Option<usize>
        ensures { result ≡ position (is_stop self) piece.now }
    {
        piece.iter().position(|byte| self.is_stop(*byte))
    }
}
