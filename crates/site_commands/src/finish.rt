//! The end of a command.

ghost use Rattle.std.specs.Prelude.{◌≡◌};
ghost use Rattle.site_commands.specs.Prelude.{end_of, WritesMade};
ghost use Rattle.uip_edge.specs.Prelude.{sink_view};

use crate::halt::Halt;
use crate::outcome::Outcome;
use crate::site_end::SiteEnd;
use file_tree::SiteError;
use uip_edge::Sink;

/// Writes what was made, and returns how the command ends.
pub(crate) fn finish<K: Sink>(made: Result<Outcome, Halt>, out: &mut K) -> SiteEnd
    ensures { WritesMade made (sink_view K.Sink out.old) (sink_view K.Sink out.new) result }
{
    match made {
        Ok(outcome) => match out.write_whole(&outcome.text) {
            Ok(()) => end_of_work(outcome.fault),
            Err(_) => SiteEnd::WriteFault,
        },
        Err(Halt::Shelf) => SiteEnd::ShelfFault,
        Err(Halt::NoMemory) => SiteEnd::NoMemory,
    }
}

/// Returns the end of a command whose text was written.
fn end_of_work(fault: Option<SiteError>) -> SiteEnd
    ensures { result ≡ end_of fault }
{
    match fault {
        None => SiteEnd::Done,
        Some(error) => SiteEnd::Bad(error),
    }
}
