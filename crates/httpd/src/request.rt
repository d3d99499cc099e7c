//! Parses a request line, word by word, as its bytes are delivered.

ghost use Rattle.std.specs.Prelude.{◌≡◌, ◌≤◌, ◌++◌, ◌&&◌, if◌then◌else◌, List, bytes_eq, codes, length, nat_eq, not, option_map, ℕ};
ghost use Rattle.std.specs.List.{starts_with};
ghost use Rattle.file_tree.specs.Prelude.{files_of};
ghost use Rattle.site_image.specs.Prelude.{file_named};
ghost use Rattle.protosocket.specs.declared.stops.Stops.TheVariants.{SpaceOrLine};
ghost use Rattle.protosocket.specs.Prelude.{after, delivered, part_taken, word_of};
ghost use Rattle.web_pages.specs.Prelude.{place_of, name_in, wanted, NotYet, hits_by};
ghost use Rattle.httpd.specs.Reception.{ReceivesMethod, ReceivesTarget, ReceivesTo, IsDecided};
ghost use Rattle.httpd.specs.Places.{IsFound};
ghost use Rattle.httpd.specs.Reply.{found_file};
ghost use Rattle.httpd.specs.Web.{IsCounted};

use crate::stage::Stage;
use crate::texts::see_loaded;
use crate::web::{hit, place_in};
use file_tree::{FileId, Image, SiteOf};
use protosocket::{LineIn, Stops};
use protothread::Hears;

/// How much of a request line was received.
pub(crate) enum Received {
    /// The first word is not complete.
    Method,
    /// The second word is not complete.
    Target,
    /// It requests the name that the line holds.
    Named,
    /// It is no request for a file.
    Refused,
}

/// Appends bytes of a piece to the word, and returns how many were consumed.
fn feed(line: &mut LineIn, piece: &[u8]) -> usize
    ensures after { line.new ≡ after line.old piece.now }
    ensures taken { result ≡ part_taken line.old piece.now }
    ensures within { result ≤ length piece.now }
{
    line.feed(piece)
}

/// Feeds a piece to the first word.
pub(crate) fn receive_method(line: &mut LineIn, piece: &[u8]) -> Received
    ensures { (request : List ℕ) → ReceivesMethod line.old request → ReceivesTo result line.new (request ++ piece.now) }
{
    let count = feed(line, piece);
    if !line.done() {
        return Received::Method;
    }
    if !is_get(line) {
        return Received::Refused;
    }
    *line = LineIn::new(Stops::SpaceOrLine);
    receive_target(line, &piece[count..])
}

/// Feeds a piece to the second word.
pub(crate) fn receive_target(line: &mut LineIn, piece: &[u8]) -> Received
    ensures { (request : List ℕ) → ReceivesTarget line.old request → ReceivesTo result line.new (request ++ piece.now) }
{
    line.feed(piece);
    if !line.done() {
        return Received::Target;
    }
    if is_path(line) {
        Received::Named
    } else {
        Received::Refused
    }
}

/// Returns whether the word is `GET`.
fn is_get(line: &LineIn) -> bool
    ensures { result ≡ (not line.now.query && bytes_eq line.now.name (codes "GET")) }
{
    let get: &[u8] = b"GET";
    !line.query && line.name.as_slice() == get
}

/// Returns whether the word begins with `/`.
fn is_path(line: &LineIn) -> bool
    ensures { result ≡ starts_with nat_eq line.now.name (codes "/") }
{
    let root: &[u8] = b"/";
    line.name.as_slice().starts_with(root)
}

/// Returns the name that the line holds; `/` is short for `/index.html`.
fn name_asked(line: &LineIn) -> &[u8]
    ensures { result.now ≡ (if bytes_eq line.now.name (codes "/") then codes "/index.html" else line.now.name) }
{
    let root: &[u8] = b"/";
    let name = line.name.as_slice();
    if name == root {
        return b"/index.html";
    }
    name
}

/// Returns the file of the name that the line holds. No file has a name that is longer than what a line keeps.
pub(crate) fn file_asked<B: Image>(site: &SiteOf<B>, line: &LineIn) -> Option<FileId>
    ensures place { (bytes : List ℕ) → line.now ≡ delivered SpaceOrLine bytes
        → option_map (λ id. id.0) result ≡ place_of (files_of site.now) (name_in (word_of SpaceOrLine bytes)) }
    ensures found { IsFound (files_of site.now) result }
    ensures file { (bytes : List ℕ) → line.now ≡ delivered SpaceOrLine bytes
        → found_file (files_of site.now) result ≡ file_named (files_of site.now) (name_in (word_of SpaceOrLine bytes)) }
{
    see_loaded(site);
    if line.over {
        return None;
    }
    place_in(site, name_asked(line))
}

/// Returns the stage of a request. If it requests a file, counts a hit of that file.
pub(crate) fn decide<B: Image>(
    site: &SiteOf<B>,
    hits: &mut [u32],
    line: &LineIn,
    delivered: Received,
) -> Stage
    requires counted { IsCounted site.now hits.old }
    ensures stage { (request : List ℕ) → ReceivesTo delivered line.now request → IsDecided (files_of site.now) line.now request result }
    ensures hits { (request : List ℕ) → ReceivesTo delivered line.now request
        → hits.new ≡ hits_by (files_of site.now) hits.old NotYet (wanted request) }
{
    match delivered {
        Received::Method => Stage::Method,
        Received::Target => Stage::Target,
        Received::Refused => Stage::Refused,
        Received::Named => {
            let found = file_asked(site, line);
            hit(hits, found);
            Stage::Reply { found }
        }
    }
}
