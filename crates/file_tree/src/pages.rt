//! The greatest lengths of pages, and the faults of scripts.

ghost use Rattle.std.specs.Prelude.{◌≡◌, ◌≤◌, ◌<◌, ◌+◌, ◌*◌, ◌↔◌, true, false, [], length, IfOk, IfErr};
ghost use Rattle.std.specs.Prelude.{OnOk, IfSome, IsTrue, MatchOption, Some, None, sum_by, slice_range};
ghost use Rattle.std.specs.List.{list_any};
ghost use Rattle.std.specs.Option.{option_map_or};
ghost use Rattle.script_lang.specs.Prelude.{pieces_by, LiesWithin};
ghost use Rattle.site_image.specs.declared.TheConstants.{LONGEST_IMAGE, MOST_FILES};
ghost use Rattle.site_image.specs.Prelude.{scripts, has_name, file_named, kind_of, misses, piece_length_by};
ghost use Rattle.site_image.specs.Prelude.{page_length_by, script_fault_by, IsWithin, file_in, files_in};
ghost use Rattle.file_tree.specs.Prelude.{AreMeasured, IsIndex, HasSoundScripts};

use crate::file_id::FileId;
use crate::index::search;
use script_lang::{Calls, Function, PieceOf, next_piece_of};
use site_image::{
    HEAD_LEN, KIND_LINE_LEN, PAGE_LIMIT, Place, SiteError, SiteWhy, content_kind, is_script,
};

/// Returns the greatest length of a piece's text, or `None` for an include that names no file.
fn piece_len<F: Calls>(
    image: &[u8],
    files: &[Place],
    order: &[FileId],
    script: &[u8],
    piece: PieceOf<F>,
) -> Option<usize>
    requires table { IsIndex image.now files.now order.now }
    requires image_fits { length image.now ≤ LONGEST_IMAGE }
    requires script_fits { length script.now ≤ LONGEST_IMAGE }
    requires within { LiesWithin (length script.now) piece }
    ensures missing { let missed = misses (files_in image.now files.now) script.now piece in
        MatchOption result (missed ≡ true) (λ _. missed ≡ false) }
    ensures len { IfSome result (λ n. n ≡ piece_length_by F.calling (files_in image.now files.now) script.now piece) }
    ensures bound { IfSome result (λ n. n ≤ LONGEST_IMAGE) }
{
    match piece {
        PieceOf::Text { len, .. } => Some(len),
        PieceOf::Call { function, .. } => Some(function.greatest_len()),
        PieceOf::Include { at, len } => included_len(image, files, order, &script[at..at + len]),
    }
}

/// Returns the length of the file with this name.
fn included_len(image: &[u8], files: &[Place], order: &[FileId], name: &[u8]) -> Option<usize>
    requires table { IsIndex image.now files.now order.now }
    requires image_fits { length image.now ≤ LONGEST_IMAGE }
    ensures missing { let there = has_name (files_in image.now files.now) name.now in
        MatchOption result (there ≡ false) (λ _. there ≡ true) }
    ensures len { let found = file_named (files_in image.now files.now) name.now in
        IfSome result (λ n. n ≡ option_map_or (λ file. length file.content) found 0) }
    ensures bound { IfSome result (λ n. n ≤ LONGEST_IMAGE) }
{
    match search(image, files, order, name) {
        Ok(rank) => Some(files[order[rank].0 as usize].len as usize),
        Err(_) => None,
    }
}

/// Returns the greatest length of a script's text, or `None` if one of its includes names no file.
fn script_len<F: Calls>(
    image: &[u8],
    files: &[Place],
    order: &[FileId],
    script: &[u8],
) -> Option<usize>
    requires table { IsIndex image.now files.now order.now }
    requires image_fits { length image.now ≤ LONGEST_IMAGE }
    requires script_fits { length script.now ≤ LONGEST_IMAGE }
    ensures missing { let pieces = pieces_by F.calling.named script.now 0 in
        let is_missed = list_any (λ found. misses (files_in image.now files.now) script.now found.piece) pieces in
        MatchOption result (is_missed ≡ true) (λ _. is_missed ≡ false) }
    ensures len { IfSome result (λ n. n
        ≡ sum_by (λ found. piece_length_by F.calling (files_in image.now files.now) script.now found.piece)
        (pieces_by F.calling.named script.now 0)) }
    ensures bound { IfSome result (λ n. n ≤ LONGEST_IMAGE * LONGEST_IMAGE) }
{
    let mut at = 0;
    let mut sum = 0usize;
    while let Some(found) = next_piece_of::<F>(script, at) {
        sum += piece_len::<F>(image, files, order, script, found.piece)?;
        at = found.next;
    }
    Some(sum)
}

/// Returns the content type of a file's page: its own, or by its name if its own is empty.
pub(crate) fn page_kind<'a>(name: &[u8], kind: &'a [u8]) -> &'a [u8]
    requires { length kind.now ≤ LONGEST_IMAGE }
    ensures kind { result.now ≡ kind_of (record { name = name.now; kind = kind.now; content = [] }) }
    ensures bound { length result.now ≤ LONGEST_IMAGE }
{
    if kind.is_empty() {
        return content_kind(name);
    }
    kind
}

/// Returns the greatest length of a file's page, or what is wrong with the file as a script.
fn page_len<F: Calls>(
    image: &[u8],
    files: &[Place],
    order: &[FileId],
    place: Place,
) -> Result<u32, SiteWhy>
    requires table { IsIndex image.now files.now order.now }
    requires image_fits { length image.now ≤ LONGEST_IMAGE }
    requires within { IsWithin image.now place }
    ensures sound { IfOk result (λ _. script_fault_by F.calling (files_in image.now files.now) (file_in image.now place) ≡ None) }
    ensures len { IfOk result (λ n. n ≡ page_length_by F.calling (files_in image.now files.now) (file_in image.now place)) }
    ensures err { IfErr result (λ why. script_fault_by F.calling (files_in image.now files.now) (file_in image.now place) ≡ Some why) }
{
    let name = bytes_at(image, place.name_at, place.name_len);
    let kind = bytes_at(image, place.kind_at, place.kind_len);
    let content = bytes_at(image, place.at, place.len);
    let prefix = HEAD_LEN + KIND_LINE_LEN + page_kind(name, kind).len();
    if !is_script(name) {
        return Ok((prefix + content.len()) as u32);
    }
    let Some(body) = script_len::<F>(image, files, order, content) else {
        return Err(SiteWhy::Include);
    };
    if prefix + body >= PAGE_LIMIT {
        return Err(SiteWhy::PageTooLong);
    }
    Ok((prefix + body) as u32)
}

/// Returns a slice of an image.
pub(crate) fn bytes_at(image: &[u8], at: u32, len: u32) -> &[u8]
    requires { at + len ≤ length image.now }
    ensures bytes { result.now ≡ slice_range image.now at (at + len) }
    ensures len { length result.now ≡ len }
{
    &image[at as usize..at as usize + len as usize]
}

/// Stores the greatest length of each file's page in its place, up to the first script with a fault.
pub(crate) fn measure(image: &[u8], files: &mut [Place], order: &[FileId]) -> Result<(), SiteError>
    requires table { IsIndex image.now files.old order.now }
    requires image_fits { length image.now ≤ LONGEST_IMAGE }
    requires few { length files.old ≤ MOST_FILES }
    ensures scripts { result ≡ scripts (files_in image.now files.old) 0 (files_in image.now files.old) }
    ensures same { files_in image.now files.new ≡ files_in image.now files.old }
    ensures table { IsIndex image.now files.new order.now }
    ensures measured { OnOk result (AreMeasured image.now files.new) }
{
    for index in 0..files.len() {
        match page_len::<Function>(image, files, order, files[index]) {
            Ok(greatest) => files[index].greatest = greatest,
            Err(why) => {
                return Err(SiteError {
                    why,
                    entry: index as u32 + 1,
                });
            }
        }
    }
    Ok(())
}

/// Returns whether no script has a fault, if scripts call these functions.
pub(crate) fn are_scripts_sound<F: Calls>(image: &[u8], files: &[Place], order: &[FileId]) -> bool
    requires table { IsIndex image.now files.now order.now }
    requires image_fits { length image.now ≤ LONGEST_IMAGE }
    ensures { IsTrue result ↔ HasSoundScripts F.calling (files_in image.now files.now) }
{
    for index in 0..files.len() {
        match page_len::<F>(image, files, order, files[index]) {
            Ok(_) => {}
            Err(_) => return false,
        }
    }
    true
}
