//! Reads the files of a list.

ghost use Rattle.std.specs.Prelude.{◌≡◌, ◌≤◌, IfOk, IfErr};
ghost use Rattle.site_image.specs.declared.TheConstants.{LONGEST_IMAGE};
ghost use Rattle.file_tree.specs.Prelude.{HasLoadCause, HoldsFile};
ghost use Rattle.site_commands.specs.Prelude.{Gathers, IsTooLong, WasRead};

use crate::named_file::NamedFile;
use file_tree::{Held, LONGEST_IMAGE, LoadFault, SiteError, SiteWhy, read_file};
use std::alloc::Global;
use uip_edge::Shelf;

/// Reads the named files in turn, up to the one for which there is no room, and returns them as a list.
pub(crate) fn gather<H: Shelf>(
    alloc: Global,
    files: &[NamedFile],
    shelf: &mut H,
) -> Result<Vec<Held>, LoadFault>
    ensures list { Gathers (λ list. list.items) files.now (H.held shelf.old) (H.faults shelf.old) (H.faults shelf.new) result }
    ensures kept { H.held shelf.new ≡ H.held shelf.old }
{
    let mut list = Vec::new(alloc);
    let mut room = LONGEST_IMAGE;
    for named in files {
        match push_read(alloc, &mut list, named, room, shelf) {
            Ok(left) => room = left,
            Err(fault) => return Err(fault),
        }
    }
    Ok(list)
}

/// Appends a further file to the list, and returns what room is left, in bytes.
fn push_read<H: Shelf>(
    alloc: Global,
    list: &mut Vec<Held>,
    named: &NamedFile,
    room: usize,
    shelf: &mut H,
) -> Result<usize, LoadFault>
    requires { room ≤ LONGEST_IMAGE }
    ensures read { IfOk result (λ left. HoldsFile (H.held shelf.old) named.now.file
        (WasRead named.now room left list.old.items list.new.items)) }
    ensures left { IfOk result (λ left. left ≤ room) }
    ensures long { IfErr result (IsTooLong (H.held shelf.old) named.now.file room) }
    ensures kept { H.held shelf.new ≡ H.held shelf.old }
    ensures cause { HasLoadCause (H.faults shelf.old) (H.faults shelf.new) (H.held shelf.old) named.now.file result }
{
    let content = read_file(alloc, shelf, &named.file, room)?;
    if content.len() > room {
        return Err(LoadFault::Bad(SiteError {
            why: SiteWhy::TooLong,
            entry: 0,
        }));
    }
    let left = room - content.len();
    let name = named.name.clone()?;
    list.push(Held { name, content })?;
    Ok(left)
}
