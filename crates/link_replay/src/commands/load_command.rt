//! `load`: the schedule of a seed, played by the web server of a site.

ghost use Rattle.std.specs.Prelude.{◌≡◌, ◌≤◌};
ghost use Rattle.file_tree.specs.Prelude.{files_of};
ghost use Rattle.workload.specs.Prelude.{workload_of};
ghost use Rattle.link_replay.specs.Prelude.{LoadEnds, WritesDue, IsPlayDue};
ghost use Rattle.uip_edge.specs.Prelude.{work_view, sink_view};
ghost use Rattle.link_replay.specs.declared.commands.output_form.OutputForm.TheVariants as tellings;

use crate::commands::output_form::OutputForm;
use crate::commands::replay_command::report_site;
use crate::commands::replay_end::ReplayEnd;
use crate::commands::text_replay::play_schedule;
use file_tree::{LoadFault, Site};
use std::alloc::Global;
use uip_edge::{Shelf, Sink};
use workload::make;

/// Plays the schedule of a seed for 1 to 64 clients by the web server of the site whose image the shelf holds under a name, and
/// writes its result in one line; `-` is the site without files. If the image is bad, one line reports it.
pub fn load<H: Shelf, K: Sink>(
    alloc: Global,
    site: &[u8],
    seed: u64,
    clients: u8,
    shelf: &mut H,
    out: &mut K,
) -> ReplayEnd
    requires some { 1 ≤ clients }
    requires few { clients ≤ 64 }
    ensures ends { LoadEnds site.now seed clients (work_view H.Shelf K.Sink shelf.old out.old)
        (work_view H.Shelf K.Sink shelf.new out.new) result }
    ensures kept { H.held shelf.new ≡ H.held shelf.old }
{
    match Site::open(alloc, shelf, site) {
        Ok(site) => load_site(alloc, site, seed, clients, out),
        Err(LoadFault::Bad(error)) => report_site(alloc, error, out),
        Err(LoadFault::Shelf) => ReplayEnd::ShelfFault,
        Err(LoadFault::NoMemory) => ReplayEnd::NoMemory,
    }
}

/// Plays the schedule of a seed by the web server of a site.
fn load_site<K: Sink>(alloc: Global, site: Site, seed: u64, clients: u8, out: &mut K) -> ReplayEnd
    requires some { 1 ≤ clients }
    requires few { clients ≤ 64 }
    ensures { WritesDue (IsPlayDue (files_of site) (workload_of seed clients) tellings.Summary)
        (sink_view K.Sink out.old) (sink_view K.Sink out.new) result }
{
    match make(alloc, seed, clients) {
        Ok(schedule) => play_schedule(alloc, site, &schedule, OutputForm::Summary, out),
        Err(_) => ReplayEnd::NoMemory,
    }
}
