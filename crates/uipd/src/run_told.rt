//! All commands, with `resolve`.

ghost use Rattle.std.specs.Prelude.{◌≡◌, None, map, string_bytes};
ghost use Rattle.udp_resolver.specs.Prelude.{streams};
ghost use Rattle.uipd.specs.ResolveWords.{resolving_of};
ghost use Rattle.uipd.specs.ReportedCompleteness.{ReportIsComplete};
ghost use Rattle.uipd.specs.ReportedRunning.{ResolveRuns, ReportedRuns};
ghost use Rattle.uipd.specs.declared.status.Status.TheVariants.{BadWords};
ghost use Rattle.uip_edge.specs.Prelude.{outside};

use crate::resolve_words::{Resolving, resolving_of};
use crate::run::run;
use crate::status::Status;
use packet_buffer::Packet;
use std::alloc::Global;
use udp_resolver::resolve;
use uip_edge::{Link, Shelf, Sink};
use uip_wire::LARGEST_DATAGRAM;

/// Does what the words ask for, those of `resolve` too. The fate of each name is reported at a sink of its own.
/// [add: told-command] Its arm.
pub fn run_told<H: Shelf, L: Link, K: Sink, T: Sink>(
    alloc: Global,
    words: &[String],
    shelf: &mut H,
    link: &mut L,
    out: &mut K,
    tell: &mut T,
) -> Status
    ensures runs { ReportedRuns (map string_bytes words.now)
        (outside H.Shelf L.Link K.Sink shelf.old link.old out.old)
        (outside H.Shelf L.Link K.Sink shelf.new link.new out.new)
        (streams L.Link K.Sink T.Sink link.old out.old tell.old)
        (streams L.Link K.Sink T.Sink link.new out.new tell.new) result }
    ensures unreported { resolving_of (map string_bytes words.now) ≡ None → tell.new ≡ tell.old }
    ensures unread { ¬ (resolving_of (map string_bytes words.now) ≡ None) → shelf.new ≡ shelf.old }
    ensures untouched { result ≡ BadWords → (shelf.new ≡ shelf.old) × (link.new ≡ link.old) × (out.new ≡ out.old) × (tell.new ≡ tell.old) }
    ensures kept { H.held shelf.new ≡ H.held shelf.old }
{
    match resolving_of(words) {
        None => run(alloc, words, shelf, link, out),
        Some(resolving) => resolve_names(alloc, &resolving, link, out, tell),
    }
}

/// Resolves names. Allocates only before the first query.
fn resolve_names<L: Link, K: Sink, T: Sink>(
    alloc: Global,
    resolving: &Resolving,
    link: &mut L,
    out: &mut K,
    tell: &mut T,
) -> Status
    ensures runs { ResolveRuns resolving.now
        (streams L.Link K.Sink T.Sink link.old out.old tell.old)
        (streams L.Link K.Sink T.Sink link.new out.new tell.new) result }
    ensures known { ¬ (result ≡ BadWords) }
{
    match Packet::new(alloc, LARGEST_DATAGRAM) {
        Ok(mut packet) => Status::from(resolve(
            &mut packet,
            resolving.own,
            resolving.server,
            resolving.id,
            &resolving.names,
            link,
            out,
            tell,
            resolving.items,
        )),
        Err(_) => Status::NoMemory,
    }
}

/// If no fault count rises and no file is missing, what is due for the words was done, those of `resolve` included, or memory
/// ran out.
pub fn run_told_is_complete()
    ensures { ReportIsComplete }
{}
