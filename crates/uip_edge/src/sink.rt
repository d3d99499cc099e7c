ghost use Rattle.std.specs.Prelude.{◌<◌, ◌≤◌, List, Option, ℕ, length, IfOk};
ghost use Rattle.std.specs.Io.KnownBytes.{WriteAppends};
ghost use Rattle.uip_edge.specs.Causes.{HasCause};
ghost use Rattle.uip_edge.specs.Views.{sink_with};
ghost use Rattle.uip_edge.specs.Writing.{Writes};

use crate::failed::Failed;

/// A sink, to which bytes are written.
pub trait Sink {
    /// The bytes that were written, if they are known.
    ghost written: { Self → Option (List ℕ) };

    /// The number of calls that failed. A count of 18446744073709551615 stays.
    ghost faults: { Self → ℕ };

    /// Appends a prefix of the piece, and returns its length in bytes. A failed call appends nothing.
    fn write(&mut self, piece: &[u8]) -> Result<usize, Failed>
        ensures within { IfOk result (λ n. n ≤ length piece.now) }
        ensures progress { IfOk result (λ n. 0 < length piece.now → 0 < n) }
        ensures bytes { WriteAppends (written self.old) (written self.new) result piece.now }
        ensures cause { HasCause (faults self.old) (faults self.new) result };

    /// Appends the whole piece. On failure a prefix of it was appended.
    fn write_whole(&mut self, piece: &[u8]) -> Result<(), Failed>
        ensures { Writes (sink_with (written self.old) (faults self.old))
            (sink_with (written self.new) (faults self.new)) result piece.now }
    {
        let mut rest = piece;
        while !rest.is_empty() {
            let count = self.write(rest)?;
            rest = &rest[count..];
        }
        Ok(())
    }
}
