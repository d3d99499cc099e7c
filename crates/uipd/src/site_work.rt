//! The commands for images of sites.

ghost use Rattle.std.specs.Prelude.{◌≡◌, ◌<◌, All, IsTrue, map, string_bytes};
ghost use Rattle.site_image.specs.Prelude.{is_kind};
ghost use Rattle.site_commands.specs.Prelude.{check_due, page_due, pack_due, upgrade_due, Ends};
ghost use Rattle.uipd.specs.Statuses.{RunsAs, status_of_site};
ghost use Rattle.uipd.specs.Words.{back_part, kind_word, named_file};
ghost use Rattle.uip_edge.specs.Prelude.{work_view};

use crate::parts::{kind_words, named_files};
use crate::status::Status;
use site_commands::{check, pack, page, upgrade};
use std::alloc::Global;
use uip_edge::{Shelf, Sink};

/// Reports the files of the image, or its first fault.
pub fn check_site<H: Shelf, K: Sink>(
    alloc: Global,
    site: &str,
    shelf: &mut H,
    out: &mut K,
) -> Status
    ensures runs { RunsAs status_of_site (Ends (check_due site.now)
        (work_view H.Shelf K.Sink shelf.old out.old) (work_view H.Shelf K.Sink shelf.new out.new)) result }
    ensures kept { H.held shelf.new ≡ H.held shelf.old }
{
    Status::from(check(alloc, site.as_bytes(), shelf, out))
}

/// Writes the page of a target, as a node sends it before anything has happened.
pub fn page_site<H: Shelf, K: Sink>(
    alloc: Global,
    site: &str,
    target: &str,
    shelf: &mut H,
    out: &mut K,
) -> Status
    ensures runs { RunsAs status_of_site (Ends (page_due site.now target.now)
        (work_view H.Shelf K.Sink shelf.old out.old) (work_view H.Shelf K.Sink shelf.new out.new)) result }
    ensures kept { H.held shelf.new ≡ H.held shelf.old }
{
    Status::from(page(alloc, site.as_bytes(), target.as_bytes(), shelf, out))
}

/// Packs the files that the words name.
pub fn pack_site<H: Shelf, K: Sink>(
    alloc: Global,
    words: &[String],
    shelf: &mut H,
    out: &mut K,
) -> Status
    ensures runs { RunsAs status_of_site (Ends (pack_due (map named_file (map string_bytes words.now)))
        (work_view H.Shelf K.Sink shelf.old out.old) (work_view H.Shelf K.Sink shelf.new out.new)) result }
    ensures kept { H.held shelf.new ≡ H.held shelf.old }
{
    match named_files(alloc, words) {
        Ok(files) => Status::from(pack(alloc, &files, shelf, out)),
        Err(_) => Status::NoMemory,
    }
}

/// Upgrades the site, with the content types that the words give.
pub fn upgrade_site<H: Shelf, K: Sink>(
    alloc: Global,
    site: &str,
    words: &[String],
    shelf: &mut H,
    out: &mut K,
) -> Status
    requires { All (λ word. IsTrue (is_kind (back_part (string_bytes word)))) words.now }
    ensures runs { RunsAs status_of_site (Ends (upgrade_due site.now (map kind_word (map string_bytes words.now)))
        (work_view H.Shelf K.Sink shelf.old out.old) (work_view H.Shelf K.Sink shelf.new out.new)) result }
    ensures kept { H.held shelf.new ≡ H.held shelf.old }
{
    match kind_words(alloc, words) {
        Ok(kinds) => Status::from(upgrade(alloc, site.as_bytes(), &kinds, shelf, out)),
        Err(_) => Status::NoMemory,
    }
}
