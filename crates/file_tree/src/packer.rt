//! Packs a list of files into an image.

ghost use Rattle.std.specs.Prelude.{◌≡◌, ◌+◌, ◌≤◌, ◌<◌, ◌++◌, ◌∷◌, [], ◌^◌, ◌-◌, length, min};
ghost use Rattle.std.specs.Prelude.{IsTrue, Ok, Some, None, IfOk, IfSome, IfNone, OnOk, IfErr};
ghost use Rattle.std.specs.Int.{w16, to_be_bytes};
ghost use Rattle.site_image.specs.declared.TheConstants.{LONGEST_IMAGE, MOST_FILES};
ghost use Rattle.site_image.specs.declared.version.Version.TheVariants.{One};
ghost use Rattle.site_image.specs.Prelude.{is_name, unless, read_image, files_in};
ghost use Rattle.site_image.specs.Grammar.{entry as written, image, magic};
ghost use Rattle.file_tree.specs.Answers.{Gives};
ghost use Rattle.file_tree.specs.Index.{IsSlot, IsIndex};
ghost use Rattle.file_tree.specs.Packing.{file_of, listed, listed_fault, named, packed};
ghost use Rattle.file_tree.specs.declared.load_fault.LoadFault.TheVariants.{Bad};

use crate::entry_writer::push_file;
use crate::file_id::FileId;
use crate::index::search;
use crate::load_fault::LoadFault;
use crate::pages::measure;
use site_image::{
    LONGEST_IMAGE, MOST_FILES, Place, SiteError, SiteWhy, Version, is_name, push_head,
};
use std::alloc::Global;
use uip_edge::Held;

/// An image that is being made, with the places of its files and the order of their names.
#[derive(Drop)]
pub(crate) struct Draft {
    pub image: Vec<u8>,
    pub files: Vec<Place>,
    pub order: Vec<FileId>,
}

/// Returns the rank of a further name in the order, or what is wrong with the name.
fn slot_of(image: &[u8], files: &[Place], order: &[FileId], name: &[u8]) -> Result<usize, SiteWhy>
    requires { IsIndex image.now files.now order.now }
    ensures sound { IfOk result (λ _. listed_fault (files_in image.now files.now) name.now ≡ None) }
    ensures name { IfOk result (λ _. IsTrue (is_name name.now)) }
    ensures slot { IfOk result (IsSlot (files_in image.now files.now) order.now name.now) }
    ensures err { IfErr result (λ why. listed_fault (files_in image.now files.now) name.now ≡ Some why) }
{
    if !is_name(name) {
        return Err(SiteWhy::Name);
    }
    match search(image, files, order, name) {
        Ok(_) => Err(SiteWhy::Twice),
        Err(slot) => Ok(slot),
    }
}

/// Appends a file of a list after the earlier ones.
fn push_named(draft: &mut Draft, name: &[u8], content: &[u8]) -> Result<(), LoadFault>
    requires table { IsIndex draft.old.image.items draft.old.files.items draft.old.order.items }
    requires few { length draft.old.files.items < MOST_FILES }
    requires room { length draft.old.image.items + length (written One (file_of name.now content.now)) ≤ LONGEST_IMAGE }
    ensures fault { let listed = files_in draft.old.image.items draft.old.files.items in
        Gives (λ done. done) result (unless (listed_fault listed name.now) (length draft.old.files.items + 1) (Ok tt)) }
    ensures image { OnOk result (draft.new.image.items ≡ draft.old.image.items ++ written One (file_of name.now content.now)) }
    ensures files { OnOk result (files_in draft.new.image.items draft.new.files.items
        ≡ files_in draft.old.image.items draft.old.files.items ++ file_of name.now content.now ∷ []) }
    ensures count { OnOk result (length draft.new.files.items ≡ length draft.old.files.items + 1) }
    ensures table { OnOk result (IsIndex draft.new.image.items draft.new.files.items draft.new.order.items) }
{
    let number = draft.files.len();
    let slot = match slot_of(&draft.image, &draft.files, &draft.order, name) {
        Ok(slot) => slot,
        Err(why) => return Err(fault_of(why, number)),
    };
    let place = push_file(&mut draft.image, Version::One, name, &[], content)?;
    draft.order.insert(slot, FileId(number as u16))?;
    draft.files.push(place)?;
    Ok(())
}

/// A file of a list to pack: its name and its content.
pub type Entry = Held;

/// Does the same for an entry of the list.
fn push_listed(draft: &mut Draft, entry: &Held) -> Result<(), LoadFault>
    requires table { IsIndex draft.old.image.items draft.old.files.items draft.old.order.items }
    requires few { length draft.old.files.items < MOST_FILES }
    requires room { length draft.old.image.items + length (written One (file_of entry.now.name entry.now.content)) ≤ LONGEST_IMAGE }
    ensures fault { let listed = files_in draft.old.image.items draft.old.files.items in
        Gives (λ done. done) result (unless (listed_fault listed entry.now.name) (length draft.old.files.items + 1) (Ok tt)) }
    ensures image { OnOk result (draft.new.image.items ≡ draft.old.image.items ++ written One (file_of entry.now.name entry.now.content)) }
    ensures files { OnOk result (files_in draft.new.image.items draft.new.files.items
        ≡ files_in draft.old.image.items draft.old.files.items ++ file_of entry.now.name entry.now.content ∷ []) }
    ensures count { OnOk result (length draft.new.files.items ≡ length draft.old.files.items + 1) }
    ensures table { OnOk result (IsIndex draft.new.image.items draft.new.files.items draft.new.order.items) }
{
    push_named(draft, &entry.name, &entry.content)
}

/// Returns the fault of the file with this number, counted from 0.
fn fault_of(why: SiteWhy, number: usize) -> LoadFault
    requires { number < MOST_FILES }
    ensures { result ≡ Bad (record { why = why; entry = number + 1 }) }
{
    LoadFault::Bad(SiteError {
        why,
        entry: number as u32 + 1,
    })
}

/// Returns the length of a file's entry, in bytes.
fn entry_len(entry: &Held) -> usize
    ensures { result ≡ min (length entry.now.name + length entry.now.content + 5) (2 ^ 64 - 1) }
{
    let texts = entry.name.len().saturating_add(entry.content.len());
    texts.saturating_add(5)
}

/// Returns the length of the list's image in bytes, or `None` if it is longer than an image may be.
fn packed_len(list: &[Held]) -> Option<usize>
    ensures fits { IfSome result (λ size. (size ≡ length (image One (listed list.now))) × (size ≤ LONGEST_IMAGE)) }
    ensures long { IfNone result (LONGEST_IMAGE < length (image One (listed list.now))) }
{
    let mut size = 10usize;
    for entry in list {
        size = size.saturating_add(entry_len(entry));
        if size > LONGEST_IMAGE {
            return None;
        }
    }
    Some(size)
}

/// Makes the image of the list in version 1, or returns the first fault of the list.
pub fn pack(alloc: Global, list: &[Entry]) -> Result<Vec<u8>, LoadFault>
    ensures exact { Gives (λ image. image.items) result (packed (listed list.now)) }

    // The image is read back as the list.
    ensures reads { IfOk result (λ image. read_image image.items ≡ Ok (listed list.now)) }
{
    let Some(size) = packed_len(list) else {
        return Err(LoadFault::Bad(SiteError {
            why: SiteWhy::TooLong,
            entry: 0,
        }));
    };
    if list.len() > MOST_FILES {
        return Err(LoadFault::Bad(SiteError {
            why: SiteWhy::TooMany,
            entry: 0,
        }));
    }
    let mut draft = Draft {
        image: Vec::with_capacity(alloc, size)?,
        files: Vec::with_capacity(alloc, list.len())?,
        order: Vec::with_capacity(alloc, list.len())?,
    };
    push_head(&mut draft.image, Version::One, list.len())?;
    push_all(&mut draft, list)?;
    measure(&draft.image, &mut draft.files, &draft.order)?;
    let Draft { image, .. } = draft;
    Ok(image)
}

/// Appends all files of the list.
fn push_all(draft: &mut Draft, list: &[Held]) -> Result<(), LoadFault>
    requires head { draft.old.image.items ≡ magic One ++ to_be_bytes w16 (length list.now) }
    requires no_files { draft.old.files.items ≡ [] }
    requires no_order { draft.old.order.items ≡ [] }
    requires few { length list.now ≤ MOST_FILES }
    requires size { length (image One (listed list.now)) ≤ LONGEST_IMAGE }
    ensures names { Gives (λ done. done) result (named [] (listed list.now)) }
    ensures image { OnOk result (draft.new.image.items ≡ image One (listed list.now)) }
    ensures files { OnOk result (files_in draft.new.image.items draft.new.files.items ≡ listed list.now) }
    ensures table { OnOk result (IsIndex draft.new.image.items draft.new.files.items draft.new.order.items) }
{
    for entry in list {
        push_listed(draft, entry)?;
    }
    Ok(())
}
