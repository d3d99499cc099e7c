//! What the connections of the web server share.

ghost use Rattle.std.specs.Prelude.{◌≡◌, ◌<◌, length, replicate, option_map, IfOk, IfSome};
ghost use Rattle.file_tree.specs.Prelude.{files_of};
ghost use Rattle.site_image.specs.Prelude.{file_named};
ghost use Rattle.web_pages.specs.Prelude.{no_hits, hits_of, place_of, hit_at};
ghost use Rattle.httpd.specs.Reply.{found_file};
ghost use Rattle.httpd.specs.Places.{IsFound};

use crate::texts::see_loaded;
use file_tree::{FileId, Image, SiteOf};
use std::alloc::{AllocError, Global};
use std::marker::Model;
use uip_edge::NoMemory;

/// A site, wherever its image lies, with a hit count for each of its files.
#[derive(Drop)]
pub struct WebOf<B: Image> {
    pub site: SiteOf<B>,
    /// The hit counts of the files, in their order.
    pub hits: Vec<u32>,
}

impl<B: Image> Model for WebOf<B> {
    ghost use Rattle.httpd.specs.Web.{WebContent, IsCounted};

    ghost Value = { WebContent };

    ghost view = { λ web. record { site = web.site; hits = web.hits.items } };

    ghost invariant = { λ web. IsCounted web.site web.hits.items };
}

/// A site whose image is in memory, with its hit counts.
pub type Web = WebOf<Vec<u8>>;

/// Returns `count` zeros.
fn zeros(alloc: Global, count: usize) -> Result<Vec<u32>, AllocError>
    ensures { IfOk result (λ zeros. zeros.items ≡ replicate count 0) }
{
    vec![in alloc; 0; count]
}

impl<B: Image> WebOf<B> {
    /// Returns the site with all hit counts 0. On `NoMemory` the site is dropped.
    pub fn new(alloc: Global, site: SiteOf<B>) -> Result<WebOf<B>, NoMemory>
        ensures site { IfOk result (λ web. web.site ≡ site) }
        ensures hits { IfOk result (λ web. web.hits ≡ no_hits (files_of site)) }
    {
        let hits = zeros(alloc, site.count())?;
        Ok(WebOf { site, hits })
    }
}

/// Returns the hit count of the file of that name; 0 if no file has it.
pub(crate) fn hits_of<B: Image>(site: &SiteOf<B>, hits: &[u32], name: &[u8]) -> u32
    requires { length hits.now ≡ length (files_of site.now) }
    ensures { result ≡ hits_of (files_of site.now) hits.now name.now }
{
    match place_in(site, name) {
        Some(id) => hits[id.0 as usize],
        None => 0,
    }
}

/// Returns the file of that name, by its index.
pub(crate) fn place_in<B: Image>(site: &SiteOf<B>, name: &[u8]) -> Option<FileId>
    ensures place { option_map (λ id. id.0) result ≡ place_of (files_of site.now) name.now }
    ensures found { IsFound (files_of site.now) result }
    ensures file { found_file (files_of site.now) result ≡ file_named (files_of site.now) name.now }
{
    see_loaded(site);
    site.find(name)
}

/// Counts a hit of a file that was found.
pub(crate) fn hit(hits: &mut [u32], found: Option<FileId>)
    requires { IfSome found (λ id. id.0 < length hits.old) }
    ensures { hits.new ≡ hit_at hits.old (option_map (λ id. id.0) found) }
{
    if let Some(id) = found {
        let at = id.0 as usize;
        hits[at] = hits[at].wrapping_add(1);
    }
}
