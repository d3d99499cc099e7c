//! The commands that serve a line.

ghost use Rattle.std.specs.Prelude.{◌≡◌, All};
ghost use Rattle.app_events.specs.Prelude.{IsAddr, IsByte};
ghost use Rattle.file_tree.specs.Prelude.{IsLoaded, files_of};
ghost use Rattle.web_pages.specs.Prelude.{no_hits};
ghost use Rattle.uipd.specs.Serving.{RunsBy, ServeRuns};
ghost use Rattle.uipd.specs.SiteServing.{SiteServes};
ghost use Rattle.uip_edge.specs.Prelude.{line_view, outside};

use crate::status::Status;
use crate::words::{Application, Limits, LineKind, ServedLine};
use app_events::App;
use ethernet_arp::{Arp, serve_ether};
use file_tree::Site;
use httpd::{Httpd, Web};
use serve_loop::serve as serve_line;
use std::alloc::Global;
use telnet_shell::Desk;
use uip_edge::{Link, Shelf, Sink};
use uip_node::Node;
use uip_wire::Addr;

/// Serves the line by its application, with the site that the shelf holds under the name; `-` is the site without files.
/// Allocates only before the first item.
pub fn serve<H: Shelf, L: Link, K: Sink>(
    alloc: Global,
    name: &[u8],
    line: ServedLine,
    shelf: &mut H,
    link: &mut L,
    out: &mut K,
) -> Status
    ensures runs { SiteServes name.now line
        (outside H.Shelf L.Link K.Sink shelf.old link.old out.old)
        (outside H.Shelf L.Link K.Sink shelf.new link.new out.new) result }
    ensures kept { H.held shelf.new ≡ H.held shelf.old }
{
    match Site::open(alloc, shelf, name) {
        Ok(site) => serve_site(alloc, site, line, link, out),
        Err(fault) => Status::from(fault),
    }
}

/// Serves the line with a site.
fn serve_site<L: Link, K: Sink>(
    alloc: Global,
    site: Site,
    line: ServedLine,
    link: &mut L,
    out: &mut K,
) -> Status
    ensures { ServeRuns (files_of site) line (line_view L.Link K.Sink link.old out.old)
        (line_view L.Link K.Sink link.new out.new) result }
{
    see_loaded(&site);
    match Web::new(alloc, site) {
        Ok(web) => serve_web(alloc, web, line, link, out),
        Err(_) => Status::NoMemory,
    }
}

/// States what holds for every site.
fn see_loaded(site: &Site)
    ensures loaded { IsLoaded site.now }
    ensures bytes { All IsByte site.now.image }
{
    see_bytes(&site.image);
}

/// States that a text is bytes.
fn see_bytes(text: &[u8])
    ensures { All IsByte text.now }
{}

/// States that an address is four bytes.
fn see_addr(addr: Addr)
    ensures { IsAddr addr }
{
    let [_first, _second, _third, _fourth] = addr.0;
}

/// Serves the line with a site of which no file was requested.
/// [add: application] The arm that makes its node.
fn serve_web<L: Link, K: Sink>(
    alloc: Global,
    web: Web,
    line: ServedLine,
    link: &mut L,
    out: &mut K,
) -> Status
    requires hits { web.hits ≡ no_hits (files_of web.site) }
    requires loaded { IsLoaded web.site }
    requires bytes { All IsByte web.site.image }
    ensures { ServeRuns (files_of web.site) line (line_view L.Link K.Sink link.old out.old)
        (line_view L.Link K.Sink link.new out.new) result }
{
    see_addr(line.own);
    match line.application {
        Application::Web => serve_by::<Httpd, L, K>(alloc, web, line, link, out),
        Application::Desk => serve_by::<Desk, L, K>(alloc, web, line, link, out),
    }
}

/// Serves the line by a node with an application. It is not inlined, so that the frame of `run` does not hold what it stores.
/// [add: line-kind] The arm that makes its medium.
#[inline(never)]
fn serve_by<A: App, L: Link, K: Sink>(
    alloc: Global,
    shared: A::Shared,
    line: ServedLine,
    link: &mut L,
    out: &mut K,
) -> Status
    ensures { RunsBy (A.app_spec (A.config shared)) A.served (A.numbers shared) line (line_view L.Link K.Sink link.old out.old)
        (line_view L.Link K.Sink link.new out.new) result }
{
    let Limits { pace, items } = line.limits;
    match Node::<A>::new(alloc, line.own, shared) {
        Ok(mut node) => match line.kind {
            LineKind::Serial => Status::from(serve_line(&mut node, link, out, pace, items)),
            LineKind::Ethernet(mac) => {
                let mut arp = Arp::new(line.own, mac);
                Status::from(serve_ether(&mut node, &mut arp, link, out, pace, items))
            }
        },
        Err(_) => Status::NoMemory,
    }
}
