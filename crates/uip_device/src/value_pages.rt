//! The web server of a device, on one connection.

ghost use Rattle.std.specs.Prelude.{◌≡◌, ◌++◌, [], false, option_map, slice_index_or, true};
ghost use Rattle.app_events.specs.Prelude.{AppState};
ghost use Rattle.file_tree.specs.Prelude.{AreApart, SiteContent, files_of};
ghost use Rattle.httpd.specs.HttpdRepresents.{Becomes, hits_after};
ghost use Rattle.web_pages.specs.Prelude.{target_of};
ghost use Rattle.uip_device.specs.Query.{kept_query, kept_text, query_after, text_after_mark};
ghost use Rattle.uip_device.specs.ValueStates.{ValuesRepresent};

use crate::device_web::{DeviceWeb, FlashWeb, see_counted};
use crate::query::{Query, query_text};
use crate::web_setup::see_loaded;
use app_events::{App, Ending, Now, Want};
use app_pair::CanPair;
use device_values::ValueCapture;
use file_tree::FileId;
use httpd::CompactPages;
use uip_wire::{Port, WEB_PORT};

/// The pages of a device, on one connection.
#[derive(Drop)]
pub struct ValuePages {
    pub pages: CompactPages<ValueCapture>,
}

/// Delivers the next bytes from the peer, and counts a hit of the file that they request.
fn take_piece(pages: &mut CompactPages<ValueCapture>, web: &mut FlashWeb, piece: &[u8])
    ensures site { web.new.site ≡ web.old.site }
    ensures part { Becomes ValuesRepresent web.old.site
        (λ p. record p { input = p.input ++ piece.now; polls = 0 }) pages.old pages.new }
    ensures hits { (p : AppState) → ValuesRepresent pages.old web.old.site p
        → web.new.hits ≡ hits_after (files_of web.old.site) p piece.now web.old.hits }
{
    pages.take_piece(&web.site, &mut web.hits, piece);
}

/// Returns whether nothing was delivered on the connection.
fn is_first(pages: &CompactPages<ValueCapture>) -> bool
    ensures first { result ≡ true → (site : SiteContent) (p : AppState) → ValuesRepresent pages.now site p
        → p.input ≡ [] }
    ensures later { result ≡ false → (site : SiteContent) (p : AppState) → ValuesRepresent pages.now site p
        → p.input ≡ [] → ⊥ }
{
    match pages {
        CompactPages::Receiving { target, line, .. } => {
            if *target {
                return false;
            }
            if line.query {
                return false;
            }
            line.name.is_empty()
        }
        CompactPages::Replying { .. } => false,
        CompactPages::Refused { .. } => false,
    }
}

/// States that no two files of a web have one name.
fn see_apart(web: &FlashWeb)
    ensures { AreApart (files_of web.now.site) }
{
    see_loaded(&web.site);
}

/// Returns the hit count of a file, by its index.
fn hit_of(web: &FlashWeb, file: FileId) -> u32
    ensures { result ≡ slice_index_or web.now.hits file.0 0 }
{
    match web.hits.get(file.0 as usize) {
        Some(hit) => *hit,
        None => 0,
    }
}

/// Keeps the query of a request for a file, if the file was found and there is a query.
fn keep_for(query: &mut Query, found: Option<FileId>, web: &FlashWeb, request: &[u8])
    ensures { query.new ≡ kept_query web.now.hits query.old (option_map (λ id. id.0) found)
        (kept_text (text_after_mark (target_of request.now))) }
{
    if let Some(file) = found {
        if let Some(text) = query_text(request) {
            query.keep(file, hit_of(web, file), text);
        }
    }
}

/// Keeps the query of a request that came in one piece, if it brought one.
fn keep(query: &mut Query, pages: &CompactPages<ValueCapture>, web: &FlashWeb, request: &[u8])
    ensures { (p : AppState) → ValuesRepresent pages.now web.now.site p → p.input ≡ request.now
        → query.new ≡ query_after (files_of web.now.site) web.now.hits query.old [] request.now }
{
    see_apart(web);
    match pages {
        CompactPages::Receiving { .. } => {}
        CompactPages::Replying { found, .. } => keep_for(query, *found, web, request),
        CompactPages::Refused { .. } => {}
    }
}

/// Delivers the next bytes from the peer, counts a hit of the file that they request, and keeps the query that they bring.
fn receive(pages: &mut CompactPages<ValueCapture>, shared: &mut DeviceWeb, piece: &[u8])
    ensures site { shared.new.web.site ≡ shared.old.web.site }
    ensures values { shared.new.values.bytes ≡ shared.old.values.bytes }
    ensures part { Becomes ValuesRepresent shared.old.web.site
        (λ p. record p { input = p.input ++ piece.now; polls = 0 }) pages.old pages.new }
    ensures hits { (p : AppState) → ValuesRepresent pages.old shared.old.web.site p
        → shared.new.web.hits ≡ hits_after (files_of shared.old.web.site) p piece.now shared.old.web.hits }
    ensures query { (p : AppState) → ValuesRepresent pages.old shared.old.web.site p
        → shared.new.query ≡ query_after (files_of shared.old.web.site) shared.new.web.hits shared.old.query p.input piece.now }
{
    let first = is_first(pages);
    take_piece(pages, &mut shared.web, piece);
    if first {
        keep(&mut shared.query, pages, &shared.web, piece);
    }
}

impl App for ValuePages {
    ghost use Rattle.std.specs.Prelude.{◌++◌};
    ghost use Rattle.file_tree.specs.Site.{SiteContent, files_of};
    ghost use Rattle.web_pages.specs.Serving.{is_served};
    ghost use Rattle.web_pages.specs.WebSpec.{web_spec_by};
    ghost use Rattle.web_pages.specs.Lemmas.WebLaws.{web_lawful, web_starts};
    ghost use Rattle.httpd.specs.Compact.{pages_kept};
    ghost use Rattle.httpd.specs.Lemmas.SameLeft.{same_left_by};
    ghost use Rattle.device_values.specs.Words.{record_text, words};

    type Shared = DeviceWeb;

    ghost Config = { SiteContent };

    ghost config = { λ shared. shared.web.site };

    // The values follow the hits.
    ghost numbers = { λ shared. shared.web.hits ++ shared.values.bytes };

    ghost app_spec = { λ site. web_spec_by words (files_of site) };

    ghost represents = { λ a site part. ValuesRepresent a.pages site part };

    ghost served = { is_served };

    fn serves(port: Port) -> bool {
        port.0 == WEB_PORT
    }

    fn idle() -> ValuePages {
        ValuePages {
            pages: CompactPages::fresh(),
        }
    }

    fn connected(&mut self, _shared: &mut DeviceWeb, _port: Port) {
        self.pages = CompactPages::fresh();
    }

    fn newdata(&mut self, shared: &mut DeviceWeb, piece: &[u8]) {
        see_counted(&shared.web);
        receive(&mut self.pages, shared, piece);
    }

    fn is_due(&self, shared: &DeviceWeb) -> bool {
        let web = &shared.web;
        self.pages.is_due_at(&web.site)
    }

    fn prepare(&mut self, shared: &DeviceWeb, now: &Now) {
        let web = &shared.web;
        self.pages
            .prepare_at(&web.site, &web.hits, &shared.values, now);
    }

    fn want(&self, shared: &DeviceWeb) -> Want {
        let web = &shared.web;
        self.pages.want_of(&web.site)
    }

    fn fill(&self, shared: &DeviceWeb, out: &mut [u8]) {
        let web = &shared.web;
        self.pages.fill_from(&web.site, out);
    }

    fn acked(&mut self, shared: &mut DeviceWeb, count: usize) {
        let web = &shared.web;
        self.pages.pass(&web.site, count);
    }

    fn polled(&mut self, _shared: &mut DeviceWeb) {
        self.pages.wait();
    }

    fn ended(&mut self, _shared: &mut DeviceWeb, _how: Ending) {}

    ghost lawful = { λ a site. web_lawful words (files_of site) (λ part. ValuesRepresent a.pages site part) };

    ghost starts = { λ site. web_starts words (files_of site) };

    ghost same_left = { λ a site p q s t. same_left_by words (λ made. made) (pages_kept record_text a.pages) site p q s t };
}

impl CanPair for ValuePages {
    ghost use Rattle.file_tree.specs.Site.{files_of};
    ghost use Rattle.device_values.specs.Words.{words};
    ghost use Rattle.uip_device.specs.Lemmas.PagePairs.{pages_can_pair};

    ghost can_pair = { λ site. pages_can_pair words (files_of site) };
}
