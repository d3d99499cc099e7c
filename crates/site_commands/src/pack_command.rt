//! `pack`: files to an image.

ghost use Rattle.std.specs.Prelude.{◌≡◌};
ghost use Rattle.site_commands.specs.Prelude.{pack_due, Ends};
ghost use Rattle.uip_edge.specs.Prelude.{work_view};

use crate::file_list::gather;
use crate::finish::finish;
use crate::image_output::{imaged, refused};
use crate::named_file::NamedFile;
use crate::site_end::SiteEnd;
use std::alloc::Global;
use uip_edge::{Shelf, Sink};

/// Writes the image of the named files in version 1. If the list has a fault, writes nothing.
pub fn pack<H: Shelf, K: Sink>(
    alloc: Global,
    files: &[NamedFile],
    shelf: &mut H,
    out: &mut K,
) -> SiteEnd
    ensures ends { Ends (pack_due files.now) (work_view H.Shelf K.Sink shelf.old out.old)
        (work_view H.Shelf K.Sink shelf.new out.new) result }
    ensures kept { H.held shelf.new ≡ H.held shelf.old }
{
    match gather(alloc, files, shelf) {
        Ok(list) => finish(imaged(alloc, file_tree::pack(alloc, &list)), out),
        Err(fault) => finish(refused(alloc, fault), out),
    }
}
