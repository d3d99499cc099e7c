//! `replay` and `load`.

ghost use Rattle.std.specs.Prelude.{◌≡◌, ◌≤◌};
ghost use Rattle.link_replay.specs.Prelude.{LoadEnds, ReplayEnds};
ghost use Rattle.uipd.specs.Statuses.{RunsAs, status_of_replay};
ghost use Rattle.uip_edge.specs.Prelude.{work_view};

use crate::status::Status;
use link_replay::{load, replay};
use std::alloc::Global;
use uip_edge::{Shelf, Sink};

/// Plays the schedule by the web server of the site, and writes the report; `-` is the site without files.
pub fn replay_site<H: Shelf, K: Sink>(
    alloc: Global,
    site: &str,
    schedule: &str,
    show: bool,
    shelf: &mut H,
    out: &mut K,
) -> Status
    ensures runs { RunsAs status_of_replay (ReplayEnds site.now schedule.now show (work_view H.Shelf K.Sink shelf.old out.old)
        (work_view H.Shelf K.Sink shelf.new out.new)) result }
    ensures kept { H.held shelf.new ≡ H.held shelf.old }
{
    Status::from(replay(
        alloc,
        site.as_bytes(),
        schedule.as_bytes(),
        show,
        shelf,
        out,
    ))
}

/// Plays the schedule of the seed by the web server of the site, and writes its result; `-` is the site without files.
pub fn load_site<H: Shelf, K: Sink>(
    alloc: Global,
    site: &str,
    seed: u64,
    clients: u8,
    shelf: &mut H,
    out: &mut K,
) -> Status
    requires some { 1 ≤ clients }
    requires few { clients ≤ 64 }
    ensures runs { RunsAs status_of_replay (LoadEnds site.now seed clients (work_view H.Shelf K.Sink shelf.old out.old)
        (work_view H.Shelf K.Sink shelf.new out.new)) result }
    ensures kept { H.held shelf.new ≡ H.held shelf.old }
{
    Status::from(load(alloc, site.as_bytes(), seed, clients, shelf, out))
}
