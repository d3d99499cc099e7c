//! `replay`: a schedule, played by the web server of a site.

ghost use Rattle.std.specs.Prelude.{◌≡◌, Bool, Err, Ok};
ghost use Rattle.file_tree.specs.Prelude.{files_of};
ghost use Rattle.site_report.specs.Report.{bad_line as line_of};
ghost use Rattle.link_replay.specs.Ending.{ReplayEnds, ReplayEndsFor};
ghost use Rattle.link_replay.specs.Due.{WritesText};
ghost use Rattle.uip_edge.specs.Prelude.{work_view, sink_view};
ghost use Rattle.link_replay.specs.declared.commands.replay_end.ReplayEnd.TheVariants as ends;

use crate::commands::command_lines::write_text;
use crate::commands::replay_end::ReplayEnd;
use crate::commands::text_replay::play_text;
use file_tree::{LoadFault, Site, SiteError, read_file};
use site_report::bad_line;
use std::alloc::Global;
use uip_edge::{Shelf, Sink};

/// The greatest length of a schedule's text, in bytes. One byte more is read, to detect a text that is too long.
const MOST_BYTES: usize = 4194304;

/// Plays the schedule that the shelf holds under a name by the web server of the site whose image it holds under another, and
/// writes the report; `-` is the site without files. If the image or the schedule is bad, one line reports it.
pub fn replay<H: Shelf, K: Sink>(
    alloc: Global,
    site: &[u8],
    schedule: &[u8],
    show: bool,
    shelf: &mut H,
    out: &mut K,
) -> ReplayEnd
    ensures ends { ReplayEnds site.now schedule.now show (work_view H.Shelf K.Sink shelf.old out.old)
        (work_view H.Shelf K.Sink shelf.new out.new) result }
    ensures kept { H.held shelf.new ≡ H.held shelf.old }
{
    match Site::open(alloc, shelf, site) {
        Ok(site) => replay_site(alloc, site, schedule, show, shelf, out),
        Err(LoadFault::Bad(error)) => refuse_site(alloc, error, schedule, shelf, out),
        Err(LoadFault::Shelf) => ReplayEnd::ShelfFault,
        Err(LoadFault::NoMemory) => ReplayEnd::NoMemory,
    }
}

/// Plays the schedule that the shelf holds under the name, by the web server of a site.
fn replay_site<H: Shelf, K: Sink>(
    alloc: Global,
    site: Site,
    schedule: &[u8],
    show: bool,
    shelf: &mut H,
    out: &mut K,
) -> ReplayEnd
    ensures ends { ReplayEndsFor (Ok (files_of site)) schedule.now show (work_view H.Shelf K.Sink shelf.old out.old)
        (work_view H.Shelf K.Sink shelf.new out.new) result }
    ensures kept { H.held shelf.new ≡ H.held shelf.old }
{
    match read_file(alloc, shelf, schedule, MOST_BYTES) {
        Ok(text) => play_text(alloc, site, &text, show, out),
        Err(LoadFault::Shelf) => ReplayEnd::ShelfFault,
        Err(LoadFault::NoMemory) => ReplayEnd::NoMemory,
        Err(LoadFault::Bad(_)) => unreachable!(),
    }
}

/// Writes the line of a bad image. The schedule is read too: one that the shelf lacks is a fault of the shelf.
fn refuse_site<H: Shelf, K: Sink>(
    alloc: Global,
    error: SiteError,
    schedule: &[u8],
    shelf: &mut H,
    out: &mut K,
) -> ReplayEnd
    ensures ends { (show : Bool) → ReplayEndsFor (Err error) schedule.now show (work_view H.Shelf K.Sink shelf.old out.old)
        (work_view H.Shelf K.Sink shelf.new out.new) result }
    ensures kept { H.held shelf.new ≡ H.held shelf.old }
{
    match read_file(alloc, shelf, schedule, MOST_BYTES) {
        Ok(_schedule) => report_site(alloc, error, out),
        Err(LoadFault::Shelf) => ReplayEnd::ShelfFault,
        Err(LoadFault::NoMemory) => ReplayEnd::NoMemory,
        Err(LoadFault::Bad(_)) => unreachable!(),
    }
}

/// Writes the line of a bad image.
pub(crate) fn report_site<K: Sink>(alloc: Global, error: SiteError, out: &mut K) -> ReplayEnd
    ensures { WritesText (line_of error) (ends.BadSite error) (sink_view K.Sink out.old) (sink_view K.Sink out.new) result }
{
    match bad_line(alloc, error) {
        Ok(text) => write_text(&text, ReplayEnd::BadSite(error), out),
        Err(_) => ReplayEnd::NoMemory,
    }
}
