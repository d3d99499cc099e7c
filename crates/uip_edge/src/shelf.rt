ghost use Rattle.std.specs.Prelude.{◌≡◌, ◌<◌, ◌≤◌, Option, ℕ, length, IfOk};
ghost use Rattle.uip_edge.specs.Shelving.{Files, Reads, HasShelfCause};

use crate::failed::Failed;

/// A shelf, from which files are read.
pub trait Shelf {
    /// The files of the shelf, if they are known. No call changes them.
    ghost held: { Self → Option Files };

    /// The number of calls that failed. A count of 18446744073709551615 stays.
    ghost faults: { Self → ℕ };

    /// Reads the file's bytes from offset `at` on to the start of the buffer, and returns how many. A failed call leaves the buffer
    /// unspecified.
    fn read(&mut self, name: &[u8], at: u64, buf: &mut [u8]) -> Result<usize, Failed>
        requires { 0 < length buf.old }
        ensures within { IfOk result (λ n. n ≤ length buf.new) }
        ensures bytes { Reads (held self.old) name.now at result buf.new }
        ensures kept { held self.new ≡ held self.old }
        ensures cause { HasShelfCause (faults self.old) (faults self.new) (held self.old) name.now result };
}
