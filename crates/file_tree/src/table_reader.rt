//! Reads the table of an image.

ghost use Rattle.std.specs.Prelude.{◌≡◌, ◌+◌, ◌≤◌, ◌<◌, ◌^◌, IfErr, IfOk, Ok, Some, [], drop, insert, length, vec_capacity, vec_len};
ghost use Rattle.site_image.specs.declared.TheConstants.{LONGEST_IMAGE, MOST_FILES};
ghost use Rattle.site_image.specs.Prelude.{entry_fault, entries, read_image, files_in};
ghost use Rattle.file_tree.specs.Prelude.{Fails, Gives, AreWithin, IsOrder, IsIndex, IsEntry, place_by, IsLoaded};

use crate::entry_place::EntryPlace;
use crate::file_id::FileId;
use crate::index::search;
use crate::load_fault::LoadFault;
use crate::pages::measure;
use crate::table::Table;
use site_image::{
    Part, Place, SiteError, SiteWhy, Version, content_part, kind_part, name_part, read_head,
};
use std::alloc::Global;

/// Returns the place of a file by its three parts.
fn place_of(name: Part, kind: Part, content: Part) -> Place
    requires name_fits { name.at + name.len < 2 ^ 32 }
    requires kind_fits { kind.at + kind.len < 2 ^ 32 }
    requires content_fits { content.at + content.len < 2 ^ 32 }
    ensures { result ≡ place_by name kind content }
{
    Place {
        name_at: name.at as u32,
        name_len: name.len as u32,
        kind_at: kind.at as u32,
        kind_len: kind.len as u32,
        at: content.at as u32,
        len: content.len as u32,
        greatest: 0,
    }
}

/// Reads the entry at `at`, after the files that were read before.
fn read_entry(
    image: &[u8],
    version: Version,
    files: &[Place],
    order: &[FileId],
    at: usize,
) -> Result<EntryPlace, SiteWhy>
    requires size { length image.now ≤ LONGEST_IMAGE }
    requires inside { at ≤ length image.now }
    requires within { AreWithin image.now files.now }
    requires order { IsOrder (files_in image.now files.now) order.now }
    ensures ok { IfOk result (λ entry.
        IsEntry image.now version (files_in image.now files.now) order.now at entry.place entry.slot entry.next) }
    ensures err { IfErr result (λ why. entry_fault version (files_in image.now files.now) (drop at image.now) ≡ Some why) }
{
    let name = name_part(image, at)?;
    let Err(slot) = search(image, files, order, &image[name.at..name.at + name.len]) else {
        return Err(SiteWhy::Twice);
    };
    let kind = kind_part(image, name.next, version)?;
    let content = content_part(image, kind.next)?;
    Ok(EntryPlace {
        place: place_of(name, kind, content),
        slot,
        next: content.next,
    })
}

/// Inserts an id into the order of the names, which has room for it.
fn insert_reserved(order: &mut Vec<FileId>, slot: usize, id: FileId)
    requires slot { slot ≤ length order.old.items }
    requires room { vec_len order.old < vec_capacity order.old }
    ensures items { order.new.items ≡ insert order.old.items slot id }
    ensures capacity { vec_capacity order.new ≡ vec_capacity order.old }
{
    let mut at = order.len();
    order.push_reserved(id);
    while slot < at {
        order.swap(at - 1, at);
        at -= 1;
    }
}

/// Reads the entries of an image, as many as its head states.
pub(crate) fn read_entries(
    alloc: Global,
    image: &[u8],
    version: Version,
    count: usize,
) -> Result<Table, LoadFault>
    requires size { length image.now ≤ LONGEST_IMAGE }
    requires head { 10 ≤ length image.now }
    requires few { count ≤ MOST_FILES }
    ensures ok { IfOk result (λ table. entries version count [] (drop 10 image.now)
        ≡ Ok (files_in image.now table.files.items, drop table.next image.now)) }
    ensures table { IfOk result (λ table. IsIndex image.now table.files.items table.order.items) }
    ensures count_is { IfOk result (λ table. length table.files.items ≡ count) }
    ensures next { IfOk result (λ table. table.next ≤ length image.now) }
    ensures err { IfErr result (λ fault. Fails fault (entries version count [] (drop 10 image.now))) }
{
    let mut files = Vec::with_capacity(alloc, count)?;
    let mut order = Vec::with_capacity(alloc, count)?;
    let mut next = 10;
    for number in 0..count {
        let entry = match read_entry(image, version, &files, &order, next) {
            Ok(entry) => entry,
            Err(why) => {
                return Err(LoadFault::Bad(SiteError {
                    why,
                    entry: number as u32 + 1,
                }));
            }
        };
        insert_reserved(&mut order, entry.slot, FileId(number as u16));
        files.push_reserved(entry.place);
        next = entry.next;
    }
    Ok(Table { files, order, next })
}

/// Reads the table of a whole image, or returns its first fault.
pub(crate) fn read_table(alloc: Global, image: &[u8]) -> Result<Table, LoadFault>
    ensures exact { Gives (λ table. files_in image.now table.files.items) result (read_image image.now) }
    ensures loaded { IfOk result (λ table. IsLoaded (record { image = image.now; files = table.files.items; order = table.order.items })) }
{
    let (version, count) = read_head(image)?;
    let mut table = read_entries(alloc, image, version, count)?;
    if table.next < image.len() {
        return Err(LoadFault::Bad(SiteError {
            why: SiteWhy::Rest,
            entry: 0,
        }));
    }
    measure(image, &mut table.files, &table.order)?;
    Ok(table)
}
