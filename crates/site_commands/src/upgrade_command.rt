//! `upgrade`: an image in version 2.

ghost use Rattle.std.specs.Prelude.{◌≡◌, All, IsTrue};
ghost use Rattle.site_image.specs.Prelude.{is_kind};
ghost use Rattle.site_commands.specs.Prelude.{upgrade_due, Ends, Makes};
ghost use Rattle.uip_edge.specs.Prelude.{work_view, shelf_view};

use crate::finish::finish;
use crate::halt::Halt;
use crate::image_output::{imaged, refused};
use crate::outcome::Outcome;
use crate::site_end::SiteEnd;
use file_tree::{KindWord, Site};
use std::alloc::Global;
use uip_edge::{Shelf, Sink};

/// Writes, in version 2, the image of the site that the shelf holds under the name, with the content types that the words give.
/// If the image or the new list has a fault, writes nothing.
pub fn upgrade<H: Shelf, K: Sink>(
    alloc: Global,
    name: &[u8],
    words: &[KindWord],
    shelf: &mut H,
    out: &mut K,
) -> SiteEnd
    requires { All (λ word. IsTrue (is_kind word.kind)) words.now }
    ensures ends { Ends (upgrade_due name.now words.now) (work_view H.Shelf K.Sink shelf.old out.old)
        (work_view H.Shelf K.Sink shelf.new out.new) result }
    ensures kept { H.held shelf.new ≡ H.held shelf.old }
{
    finish(make(alloc, name, words, shelf), out)
}

/// Makes the new image, or returns the first fault of the old one or of the new list, with nothing to write.
fn make<H: Shelf>(
    alloc: Global,
    name: &[u8],
    words: &[KindWord],
    shelf: &mut H,
) -> Result<Outcome, Halt>
    requires { All (λ word. IsTrue (is_kind word.kind)) words.now }
    ensures made { Makes (upgrade_due name.now words.now) (shelf_view H.Shelf shelf.old) (shelf_view H.Shelf shelf.new) result }
    ensures kept { H.held shelf.new ≡ H.held shelf.old }
{
    match Site::load(alloc, shelf, name) {
        Ok(site) => imaged(alloc, file_tree::upgrade(alloc, &site, words)),
        Err(fault) => refused(alloc, fault),
    }
}
