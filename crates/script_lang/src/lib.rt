//! The scripts of a site's pages: text with directives that begin at `%!` and end with their line. `next_piece` reads the next
//! text run, include or call at any offset that is not inside a directive. A page's thread therefore stores one number and no
//! table of pieces. No call is passed an allocator.
#![tactic(auto)]

mod calls;
mod function;
mod piece;
mod same;
mod scan;
mod search;
mod words;

pub use calls::Calls;
pub use function::{Function, greatest_len};
pub use piece::{Found, FoundOf, Piece, PieceOf};
pub use same::{ends_in, is_word};
pub use scan::{next_piece, next_piece_of, runs_past};

#[cfg(test)]
mod tests;
