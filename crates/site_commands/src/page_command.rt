//! `page`: one page of a site.

ghost use Rattle.std.specs.Prelude.{◌≡◌, Ok};
ghost use Rattle.file_tree.specs.Prelude.{files_of};
ghost use Rattle.web_pages.specs.Prelude.{zero_page};
ghost use Rattle.site_commands.specs.Prelude.{page_due, Ends};
ghost use Rattle.uip_edge.specs.Prelude.{sink_view, work_view, WritesEnd};
ghost use Rattle.site_commands.specs.declared.site_end.SiteEnd.TheVariants as ends;

use crate::site_end::SiteEnd;
use file_tree::{LoadFault, Site};
use httpd::page_zero;
use std::alloc::Global;
use uip_edge::{Shelf, Sink};

/// Writes the page of a target, as a node sends it before anything has happened. The site is the one whose image the shelf
/// holds under the name; `-` is the site without files. The page is written as it is made. If the image has a fault, nothing is
/// written.
pub fn page<H: Shelf, K: Sink>(
    alloc: Global,
    name: &[u8],
    target: &[u8],
    shelf: &mut H,
    out: &mut K,
) -> SiteEnd
    ensures ends { Ends (page_due name.now target.now) (work_view H.Shelf K.Sink shelf.old out.old)
        (work_view H.Shelf K.Sink shelf.new out.new) result }
    ensures kept { H.held shelf.new ≡ H.held shelf.old }
{
    match Site::open(alloc, shelf, name) {
        Ok(site) => write_page(&site, target, out),
        Err(LoadFault::Bad(error)) => SiteEnd::Bad(error),
        Err(LoadFault::Shelf) => SiteEnd::ShelfFault,
        Err(LoadFault::NoMemory) => SiteEnd::NoMemory,
    }
}

/// Writes the page of a target.
fn write_page<K: Sink>(site: &Site, target: &[u8], out: &mut K) -> SiteEnd
    ensures { WritesEnd ends.Done ends.WriteFault (sink_view K.Sink out.old) (sink_view K.Sink out.new)
        (zero_page (files_of site.now) target.now) result }
{
    match page_zero(site, target, out) {
        Ok(()) => SiteEnd::Done,
        Err(_) => SiteEnd::WriteFault,
    }
}
