//! What holds for every word that is received.

ghost use Rattle.protosocket.specs.Prelude.{ReceivesInPieces};

/// Receiving a word in pieces gives the same value as receiving it at once.
#[tactic(auto, using(crate::proofs::Pieces::receives_in_pieces))]
pub fn receives_in_pieces()
    ensures { ReceivesInPieces }
{}
