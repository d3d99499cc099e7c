//! The pieces of a script, by offsets in its bytes.

use crate::function::Function;

/// A piece of a script, by offsets in the script's bytes.
#[derive(Clone, Copy, Debug, PartialEq, Eq)]
pub enum PieceOf<F> {
    /// A text run: bytes that are sent unchanged.
    Text { at: usize, len: usize },
    /// The file with the name at this offset. Both numbers are 0 if the directive has no name.
    Include { at: usize, len: usize },
    /// The function's text for the argument at this offset. Both numbers are 0 if there is no argument.
    Call { function: F, at: usize, len: usize },
}

/// A piece, and the offset after it.
#[derive(Clone, Copy, Debug, PartialEq, Eq)]
pub struct FoundOf<F> {
    pub piece: PieceOf<F>,
    pub next: usize,
}

/// A piece of a script that calls the functions of uIP.
pub type Piece = PieceOf<Function>;

/// Such a piece, and the offset after it.
pub type Found = FoundOf<Function>;
