//! Upgrades an image to version 2.

ghost use Rattle.std.specs.Prelude.{◌≡◌, ◌+◌, ◌≤◌, ◌<◌, ◌++◌, ◌∷◌, [], bytes_eq, find, length, nat_lt, option_copied, reverse};
ghost use Rattle.std.specs.Prelude.{option_map, slice_get, All, IsTrue, Ok, Err, Some, IfOk, OnOk, IfErr};
ghost use Rattle.std.specs.Int.{w16, to_be_bytes};
ghost use Rattle.site_image.specs.declared.TheConstants.{MOST_FILES};
ghost use Rattle.site_image.specs.declared.site_error.SiteWhy.TheVariants.{TooLong};
ghost use Rattle.site_image.specs.declared.version.Version.TheVariants.{Two};
ghost use Rattle.site_image.specs.Prelude.{is_name, is_kind, refuse, read_image, files_in};
ghost use Rattle.site_image.specs.Grammar.{entry, image as spelled, magic};
ghost use Rattle.file_tree.specs.Answers.{Fails, Gives};
ghost use Rattle.file_tree.specs.Index.{AreWithin};
ghost use Rattle.file_tree.specs.Site.{AreGood, files_of};
ghost use Rattle.file_tree.specs.Upgrading.{chosen, upgraded, second_image};

use crate::entry_writer::push_file;
use crate::file_id::FileId;
use crate::kind_word::KindWord;
use crate::load_fault::LoadFault;
use crate::pages::measure;
use crate::site::Site;
use site_image::{LONGEST_IMAGE, Place, SiteError, SiteWhy, Version, push_head};
use std::alloc::Global;

/// Returns the content type that the last word with the name gives.
fn word_kind<'a>(words: &'a [KindWord], name: &[u8]) -> Option<&'a [u8]>
    ensures { option_copied result ≡ option_map (λ word. word.kind) (find (λ word. bytes_eq word.name name.now) (reverse words.now)) }
{
    words
        .iter()
        .rev()
        .find(|word| word.name.as_slice() == name)
        .map(|word| word.kind.as_slice())
}

/// Returns the content type of the file in the new image: by the words, else the one that it had.
fn chosen_kind<'a>(site: &'a Site, words: &'a [KindWord], id: FileId) -> &'a [u8]
    requires { id.0 < length (files_of site.now) }
    ensures { option_map (chosen words.now) (slice_get (files_of site.now) id.0) ≡ Some result.now }
{
    if let Some(kind) = word_kind(words, site.name(id)) {
        return kind;
    }
    site.kind(id)
}

/// The parts of a file's new entry.
#[derive(Clone, Copy)]
struct NewFile<'a> {
    name: &'a [u8],
    kind: &'a [u8],
    content: &'a [u8],
}

/// Returns the file with the id, as it is in the new list.
fn new_file<'a>(site: &'a Site, words: &'a [KindWord], id: FileId) -> NewFile<'a>
    requires { id.0 < length (files_of site.now) }
    ensures { slice_get (upgraded words.now (files_of site.now)) id.0
        ≡ Some (record { name = result.name.now; kind = result.kind.now; content = result.content.now }) }
{
    NewFile {
        name: site.name(id),
        kind: chosen_kind(site, words, id),
        content: site.bytes(id),
    }
}

/// Appends a new file. Fails if the image would be longer than an image may be.
fn push_new(image: &mut Vec<u8>, files: &mut Vec<Place>, file: NewFile<'_>) -> Result<(), LoadFault>
    requires name { IsTrue (is_name file.name.now) }
    requires kind { IsTrue (is_kind file.kind.now) }
    requires within { AreWithin image.old.items files.old.items }
    ensures long { let size = length image.old.items
        + length (entry Two (record { name = file.entry.name.now; kind = file.entry.kind.now; content = file.entry.content.now })) in
        IfErr result (λ fault. Fails fault (refuse (nat_lt LONGEST_IMAGE size) TooLong)) }
    ensures image { OnOk result (image.new.items ≡ image.old.items
        ++ entry Two (record { name = file.entry.name.now; kind = file.entry.kind.now; content = file.entry.content.now })) }
    ensures room { OnOk result (length image.new.items ≤ LONGEST_IMAGE) }
    ensures files { OnOk result (files_in image.new.items files.new.items ≡ files_in image.old.items files.old.items
        ++ record { name = file.entry.name.now; kind = file.entry.kind.now; content = file.entry.content.now } ∷ []) }
    ensures count { OnOk result (length files.new.items ≡ length files.old.items + 1) }
    ensures within { OnOk result (AreWithin image.new.items files.new.items) }
{
    let texts = file.name.len().saturating_add(file.kind.len());
    let texts = texts.saturating_add(file.content.len()).saturating_add(6);
    if image.len().saturating_add(texts) > LONGEST_IMAGE {
        return Err(LoadFault::Bad(SiteError {
            why: SiteWhy::TooLong,
            entry: 0,
        }));
    }
    let place = push_file(image, Version::Two, file.name, file.kind, file.content)?;
    files.push(place)?;
    Ok(())
}

/// Appends the files of the new list after the head of an image.
fn push_new_files(
    image: &mut Vec<u8>,
    files: &mut Vec<Place>,
    site: &Site,
    words: &[KindWord],
) -> Result<(), LoadFault>
    requires head { image.old.items ≡ magic Two ++ to_be_bytes w16 (length (files_of site.now)) }
    requires no_files { files.old.items ≡ [] }
    requires few { length (files_of site.now) ≤ MOST_FILES }
    requires good { AreGood (files_of site.now) }
    requires kinds { All (λ word. IsTrue (is_kind word.kind)) words.now }
    ensures long { let new = spelled Two (upgraded words.now (files_of site.now)) in
        IfErr result (λ fault. Fails fault (refuse (nat_lt LONGEST_IMAGE (length new)) TooLong)) }
    ensures image { OnOk result (image.new.items ≡ spelled Two (upgraded words.now (files_of site.now))) }
    ensures room { OnOk result (length image.new.items ≤ LONGEST_IMAGE) }
    ensures files { OnOk result (files_in image.new.items files.new.items ≡ upgraded words.now (files_of site.now)) }
    ensures within { OnOk result (AreWithin image.new.items files.new.items) }
{
    for number in 0..site.count() {
        push_new(image, files, new_file(site, words, FileId(number as u16)))?;
    }
    Ok(())
}

/// Makes the image of a site in version 2, with the content types that the words give, or returns the first fault of the new
/// list.
pub fn upgrade(alloc: Global, site: &Site, words: &[KindWord]) -> Result<Vec<u8>, LoadFault>
    requires { All (λ word. IsTrue (is_kind word.kind)) words.now }
    ensures exact { Gives (λ image. image.items) result (second_image (upgraded words.now (files_of site.now))) }

    // The image represents the same names and contents, each with its new content type.
    ensures reads { IfOk result (λ image. read_image image.items ≡ Ok (upgraded words.now (files_of site.now))) }
{
    let order = &site.order;
    let mut image = Vec::new(alloc);
    let mut files = Vec::with_capacity(alloc, site.count())?;
    push_head(&mut image, Version::Two, site.count())?;
    push_new_files(&mut image, &mut files, site, words)?;
    measure(&image, &mut files, order)?;
    Ok(image)
}
