//! Appends the entry of a file to an image.

ghost use Rattle.std.specs.Prelude.{◌≡◌, ◌+◌, ◌≤◌, ◌<◌, ◌++◌, length, IsTrue, IfOk, OnOk};
ghost use Rattle.site_image.specs.declared.TheConstants.{LONGEST_IMAGE};
ghost use Rattle.site_image.specs.Prelude.{is_name, entry, IsKindIn, IsWithin, file_in};
ghost use Rattle.file_tree.specs.Prelude.{place_after};

use site_image::{Place, Version, push_entry};
use std::alloc::AllocError;

/// Returns the place of an entry that begins at `start`, by the lengths of its parts.
fn place_at(start: usize, version: Version, name: usize, kind: usize, content: usize) -> Place
    requires start_fits { start ≤ LONGEST_IMAGE }
    requires name_fits { name ≤ LONGEST_IMAGE }
    requires kind_fits { kind ≤ LONGEST_IMAGE }
    requires content_fits { content ≤ LONGEST_IMAGE }
    ensures { result ≡ place_after version start name kind content }
{
    let name_end = start + 1 + name;
    let kind_at = match version {
        Version::One => name_end,
        Version::Two => name_end + 1,
    };
    Place {
        name_at: start as u32 + 1,
        name_len: name as u32,
        kind_at: kind_at as u32,
        kind_len: kind as u32,
        at: (kind_at + kind + 4) as u32,
        len: content as u32,
        greatest: 0,
    }
}

/// Appends the entry of a file to an image, and returns the file's place.
pub(crate) fn push_file(
    image: &mut Vec<u8>,
    version: Version,
    name: &[u8],
    kind: &[u8],
    content: &[u8],
) -> Result<Place, AllocError>
    requires name { IsTrue (is_name name.now) }
    requires kind { IsKindIn version kind.now }
    requires room { length image.old.items
        + length (entry version (record { name = name.now; kind = kind.now; content = content.now })) ≤ LONGEST_IMAGE }
    ensures items { OnOk result (image.new.items ≡ image.old.items
        ++ entry version (record { name = name.now; kind = kind.now; content = content.now })) }
    ensures place { IfOk result (λ place. IsWithin image.new.items place) }
    ensures file { IfOk result (λ place. file_in image.new.items place
        ≡ record { name = name.now; kind = kind.now; content = content.now }) }
{
    let start = image.len();
    push_entry(image, version, name, kind, content)?;
    Ok(place_at(start, version, name.len(), kind.len(), content.len()))
}
