//! Finds a file by its name, by binary search in the order of the names.

ghost use Rattle.std.specs.Prelude.{◌≡◌, ◌<◌, Some, length, is_some, option_and_then, option_map, slice_get, IfOk, IfErr, IfSome};
ghost use Rattle.site_image.specs.Prelude.{file_named, has_name, files_in};
ghost use Rattle.file_tree.specs.Prelude.{AreWithin, IsOrder, IsSlot, IsIndex, name_of, name_at};

use crate::file_id::FileId;
use site_image::Place;
use std::cmp::Ordering;

/// Returns the name of the file with the id.
pub(crate) fn name_in<'a>(image: &'a [u8], files: &[Place], id: FileId) -> &'a [u8]
    requires within { AreWithin image.now files.now }
    requires id { id.0 < length files.now }
    ensures { result.now ≡ name_of (files_in image.now files.now) id.0 }
{
    let place = files[id.0 as usize];
    let at = place.name_at as usize;
    &image[at..at + place.name_len as usize]
}

/// Returns the rank of the name in the order, or the rank at which it would be inserted.
pub(crate) fn search(
    image: &[u8],
    files: &[Place],
    order: &[FileId],
    name: &[u8],
) -> Result<usize, usize>
    requires within { AreWithin image.now files.now }
    requires order { IsOrder (files_in image.now files.now) order.now }
    ensures found { IfOk result (λ rank. (rank < length order.now) × (name_at (files_in image.now files.now) order.now rank ≡ name.now)) }
    ensures missing { IfErr result (IsSlot (files_in image.now files.now) order.now name.now) }
{
    let mut low = 0;
    let mut high = order.len();
    while low < high {
        let middle = low + (high - low) / 2;
        match name_in(image, files, order[middle]).cmp(&name) {
            Ordering::Less => low = middle + 1,
            Ordering::Equal => return Ok(middle),
            Ordering::Greater => high = middle,
        }
    }
    Err(low)
}

/// Returns the id of the file with this name.
pub(crate) fn find_id(
    image: &[u8],
    files: &[Place],
    order: &[FileId],
    name: &[u8],
) -> Option<FileId>
    requires { IsIndex image.now files.now order.now }
    ensures found { IfSome result (λ id. option_map (λ file. file.name) (slice_get (files_in image.now files.now) id.0) ≡ Some name.now) }
    ensures there { is_some result ≡ has_name (files_in image.now files.now) name.now }
    ensures file { option_and_then (λ id. slice_get (files_in image.now files.now) id.0) result
        ≡ file_named (files_in image.now files.now) name.now }
{
    match search(image, files, order, name) {
        Ok(rank) => Some(order[rank]),
        Err(_) => None,
    }
}
