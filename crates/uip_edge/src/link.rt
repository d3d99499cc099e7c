ghost use Rattle.std.specs.Prelude.{◌<◌, List, Option, ℕ, length};
ghost use Rattle.uip_edge.specs.declared.item.Item.{Item};
ghost use Rattle.uip_edge.specs.Causes.{HasCause};
ghost use Rattle.uip_edge.specs.Coming.{items_of, CountFits, Consumes, IsAtEnd};

use crate::failed::Failed;
use crate::got::Got;

/// A link, from which items are received.
pub trait Link {
    /// The items to come, if they are known.
    ghost coming: { Self → Option (List Item) };

    /// The number of calls that failed. A count of 18446744073709551615 stays.
    ghost faults: { Self → ℕ };

    /// Receives bytes, to the start of the buffer, or one silence. A failed call takes nothing and leaves the buffer unspecified.
    fn next(&mut self, buf: &mut [u8]) -> Result<Got, Failed>
        requires { 0 < length buf.old }
        ensures count { CountFits result (length buf.new) }
        ensures items { Consumes (coming self.old) (coming self.new) (items_of result buf.new) }
        ensures end { IsAtEnd result (coming self.old) }
        ensures cause { HasCause (faults self.old) (faults self.new) result };
}
