//! The commands, but `resolve`.

ghost use Rattle.std.specs.Prelude.{◌≡◌, map, string_bytes};
ghost use Rattle.uipd.specs.Completeness.{RunIsComplete};
ghost use Rattle.uipd.specs.Running.{Runs};
ghost use Rattle.uip_edge.specs.Prelude.{outside};
ghost use Rattle.uipd.specs.declared.status.Status.TheVariants.{BadWords};

use crate::help::show;
use crate::replay_work::{load_site, replay_site};
use crate::serve::serve;
use crate::site_work::{check_site, pack_site, page_site, upgrade_site};
use crate::status::Status;
use crate::words::{Command, command_of};
use std::alloc::Global;
use trace::{dump, pcap, slip};
use uip_edge::{Link, Shelf, Sink};

/// Does what the words ask for, and returns how it ended.
/// [add: command] An arm that calls its work; the work is in a file of its own, or in a crate below.
pub fn run<H: Shelf, L: Link, K: Sink>(
    alloc: Global,
    words: &[String],
    shelf: &mut H,
    link: &mut L,
    out: &mut K,
) -> Status
    ensures runs { Runs (map string_bytes words.now) (outside H.Shelf L.Link K.Sink shelf.old link.old out.old)
        (outside H.Shelf L.Link K.Sink shelf.new link.new out.new) result }
    ensures untouched { result ≡ BadWords → (shelf.new ≡ shelf.old) × (link.new ≡ link.old) × (out.new ≡ out.old) }
    ensures kept { H.held shelf.new ≡ H.held shelf.old }
{
    match command_of(words) {
        None => Status::BadWords,
        Some(Command::Serve(site, line)) => serve(alloc, site.as_bytes(), line, shelf, link, out),
        Some(Command::Check(site)) => check_site(alloc, site, shelf, out),
        Some(Command::Pack(words)) => pack_site(alloc, words, shelf, out),
        Some(Command::Upgrade(site, words)) => upgrade_site(alloc, site, words, shelf, out),
        Some(Command::Page(site, target)) => page_site(alloc, site, target, shelf, out),
        Some(Command::Replay(site, schedule, show)) => {
            replay_site(alloc, site, schedule, show, shelf, out)
        }
        Some(Command::Load(site, seed, clients)) => {
            load_site(alloc, site, seed, clients, shelf, out)
        }
        Some(Command::Dump(items)) => Status::from(dump(link, out, items)),
        Some(Command::Pcap(items)) => Status::from(pcap(link, out, items)),
        Some(Command::Slip(items)) => Status::from(slip(link, out, items)),
        Some(Command::Show(text)) => show(text, out),
    }
}

/// If no fault count rises and no file is missing, what is due for the words was done, or memory ran out.
pub fn run_is_complete()
    ensures { RunIsComplete }
{}
