//! `check`: the report on an image.

ghost use Rattle.std.specs.Prelude.{◌≡◌};
ghost use Rattle.site_commands.specs.Prelude.{check_due, Ends, Makes};
ghost use Rattle.uip_edge.specs.Prelude.{work_view, shelf_view};

use crate::finish::finish;
use crate::halt::Halt;
use crate::outcome::Outcome;
use crate::site_end::SiteEnd;
use file_tree::{LoadFault, Site};
use site_report::{bad_line, report};
use std::alloc::Global;
use uip_edge::{Shelf, Sink};

/// Writes each file of the image that the shelf holds under the name, with the greatest length of its page in bytes, and their
/// count; or the line of the image's first fault.
pub fn check<H: Shelf, K: Sink>(alloc: Global, name: &[u8], shelf: &mut H, out: &mut K) -> SiteEnd
    ensures ends { Ends (check_due name.now) (work_view H.Shelf K.Sink shelf.old out.old)
        (work_view H.Shelf K.Sink shelf.new out.new) result }
    ensures kept { H.held shelf.new ≡ H.held shelf.old }
{
    finish(make(alloc, name, shelf), out)
}

/// Makes the report on the image, or the line of its first fault.
fn make<H: Shelf>(alloc: Global, name: &[u8], shelf: &mut H) -> Result<Outcome, Halt>
    ensures made { Makes (check_due name.now) (shelf_view H.Shelf shelf.old) (shelf_view H.Shelf shelf.new) result }
    ensures kept { H.held shelf.new ≡ H.held shelf.old }
{
    match Site::load(alloc, shelf, name) {
        Ok(site) => Ok(Outcome {
            text: report(alloc, &site)?,
            fault: None,
        }),
        Err(LoadFault::Bad(error)) => Ok(Outcome {
            text: bad_line(alloc, error)?,
            fault: Some(error),
        }),
        Err(LoadFault::Shelf) => Err(Halt::Shelf),
        Err(LoadFault::NoMemory) => Err(Halt::NoMemory),
    }
}
