//! The site: read, loaded or opened, and the calls that serve it.

ghost use Rattle.std.specs.Prelude.{◌≡◌, ◌<◌, ◌≤◌, ◌↔◌, [], List, Some, Ok, length, is_some, IfOk};
ghost use Rattle.std.specs.Prelude.{IfSome, IsTrue, option_and_then, option_map, slice_get};
ghost use Rattle.site_image.specs.declared.TheConstants.{MOST_FILES};
ghost use Rattle.site_image.specs.Prelude.{File, file_named, kind_of, has_name, IsImage, read_image, page_length};
ghost use Rattle.file_tree.specs.Answers.{Gives};
ghost use Rattle.file_tree.specs.Loading.{Loads, HasLoadCause};
ghost use Rattle.file_tree.specs.Opening.{Opens};
ghost use Rattle.file_tree.specs.Site.{HasSoundScripts, files_of};

use crate::file_id::FileId;
use crate::image::Image;
use crate::index::find_id;
use crate::load_fault::LoadFault;
use crate::pages::{are_scripts_sound, bytes_at, page_kind};
use crate::shelf_reader::read_file;
use crate::table::Table;
use crate::table_reader::read_table;
use script_lang::Calls;
use site_image::{LONGEST_IMAGE, Place};
use std::alloc::Global;
use std::marker::Model;
use uip_edge::Shelf;

/// A read-only file tree: one image, wherever its bytes are, the place of each file in it, and the ids of the files in the
/// order of their names.
#[derive(Drop)]
pub struct SiteOf<B: Image> {
    pub image: B,
    pub files: Vec<Place>,
    pub order: Vec<FileId>,
}

impl<B: Image> Model for SiteOf<B> {
    ghost use Rattle.file_tree.specs.Site.{SiteContent, IsLoaded};

    ghost Value = { SiteContent };

    ghost view = { λ site. record { image = B.held site.image; files = site.files.items; order = site.order.items } };

    ghost invariant = { λ site. IsLoaded (record { image = B.held site.image; files = site.files.items; order = site.order.items }) };
}

/// A site with its image in memory.
pub type Site = SiteOf<Vec<u8>>;

/// A site whose image is read in place, as in flash. Only its tables are allocated.
pub type FlashSite = SiteOf<&'static [u8]>;

impl SiteOf<Vec<u8>> {
    /// Returns the site without files. Allocates nothing.
    pub fn empty(alloc: Global) -> Site
        ensures { result ≡ record { image = []; files = []; order = [] } }
    {
        Site {
            image: Vec::new(alloc),
            files: Vec::new(alloc),
            order: Vec::new(alloc),
        }
    }

    /// Reads a copy of an image. Fails with the first fault of the image, or if memory runs out.
    pub fn read(alloc: Global, image: &[u8]) -> Result<Site, LoadFault>
        ensures exact { Gives files_of result (read_image image.now) }
        ensures image { IfOk result (λ site. site.image ≡ image.now) }

        // A good image represents one list of files by the grammar, and it is read as that list.
        ensures spelled { IfOk result (λ site. IsImage image.now (files_of site)) }
        ensures only { (files : List File) → IsImage image.now files → Gives files_of result (Ok files) }
    {
        Site::from_image(Vec::from_slice(alloc, image)?, alloc)
    }

    /// Loads the image that the shelf holds under the name.
    pub fn load<H: Shelf>(alloc: Global, shelf: &mut H, name: &[u8]) -> Result<Site, LoadFault>
        ensures image { Loads files_of (H.held shelf.old) name.now result }
        ensures kept { H.held shelf.new ≡ H.held shelf.old }
        ensures cause { HasLoadCause (H.faults shelf.old) (H.faults shelf.new) (H.held shelf.old) name.now result }
    {
        let image = read_file(alloc, shelf, name, LONGEST_IMAGE)?;
        Site::from_image(image, alloc)
    }

    /// Loads the image that the shelf holds under the name. The name `-` is the site without files.
    pub fn open<H: Shelf>(alloc: Global, shelf: &mut H, name: &[u8]) -> Result<Site, LoadFault>
        ensures opens { Opens name.now (H.held shelf.old) (H.faults shelf.old) (H.faults shelf.new) result }
        ensures kept { H.held shelf.new ≡ H.held shelf.old }
    {
        let none: &[u8] = b"-";
        if name == none {
            return Ok(Site::empty(alloc));
        }
        Site::load(alloc, shelf, name)
    }

    /// Reads an image that is already in memory.
    pub(crate) fn from_image(image: Vec<u8>, alloc: Global) -> Result<Site, LoadFault>
        ensures exact { Gives files_of result (read_image image.items) }
        ensures image { IfOk result (λ site. site.image ≡ image.items) }
    {
        SiteOf::of(alloc, image)
    }
}

impl SiteOf<&'static [u8]> {
    /// Reads an image in place, without a copy. Fails with the first fault of the image, or if memory runs out.
    pub fn read_in_place(alloc: Global, image: &'static [u8]) -> Result<FlashSite, LoadFault>
        ensures exact { Gives files_of result (read_image image.now) }
        ensures image { IfOk result (λ site. site.image ≡ image.now) }

        // A good image represents one list of files by the grammar, and it is read as that list.
        ensures spelled { IfOk result (λ site. IsImage image.now (files_of site)) }
        ensures only { (files : List File) → IsImage image.now files → Gives files_of result (Ok files) }
    {
        SiteOf::of(alloc, image)
    }
}

/// The calls of a site, wherever its image is.
impl<B: Image> SiteOf<B> {
    /// Reads an image. Fails with the first fault of the image, or if memory runs out.
    pub fn of(alloc: Global, image: B) -> Result<SiteOf<B>, LoadFault>
        ensures exact { Gives files_of result (read_image (B.held image)) }
        ensures image { IfOk result (λ site. site.image ≡ B.held image) }
    {
        let table = read_table(alloc, image.bytes())?;
        let Table { files, order, .. } = table;
        Ok(SiteOf {
            image,
            files,
            order,
        })
    }

    /// Returns the number of files.
    pub fn count(&self) -> usize
        ensures count { result ≡ length (files_of self.now) }
        ensures few { result ≤ MOST_FILES }
    {
        self.files.len()
    }

    /// Returns the file with this name, and `None` exactly if no file has it.
    pub fn find(&self, name: &[u8]) -> Option<FileId>
        ensures found { IfSome result (λ id. option_map (λ file. file.name) (slice_get (files_of self.now) id.0) ≡ Some name.now) }
        ensures within { IfSome result (λ id. id.0 < length (files_of self.now)) }
        ensures there { is_some result ≡ has_name (files_of self.now) name.now }
        ensures file { option_and_then (λ id. slice_get (files_of self.now) id.0) result ≡ file_named (files_of self.now) name.now }
    {
        find_id(self.image.bytes(), &self.files, &self.order, name)
    }

    /// Returns the name of a file.
    pub fn name(&self, id: FileId) -> &[u8]
        requires { id.0 < length (files_of self.now) }
        ensures { option_map (λ file. file.name) (slice_get (files_of self.now) id.0) ≡ Some result.now }
    {
        let place = &self.files[id.0 as usize];
        bytes_at(self.image.bytes(), place.name_at, place.name_len)
    }

    /// Returns the bytes of a file.
    pub fn bytes(&self, id: FileId) -> &[u8]
        requires { id.0 < length (files_of self.now) }
        ensures { option_map (λ file. file.content) (slice_get (files_of self.now) id.0) ≡ Some result.now }
    {
        let place = &self.files[id.0 as usize];
        bytes_at(self.image.bytes(), place.at, place.len)
    }

    /// Returns the content type of a file's page.
    pub fn kind(&self, id: FileId) -> &[u8]
        requires { id.0 < length (files_of self.now) }
        ensures { option_map kind_of (slice_get (files_of self.now) id.0) ≡ Some result.now }
    {
        let place = &self.files[id.0 as usize];
        let name = bytes_at(self.image.bytes(), place.name_at, place.name_len);
        page_kind(
            name,
            bytes_at(self.image.bytes(), place.kind_at, place.kind_len),
        )
    }

    /// Returns the greatest length of a file's page, in bytes.
    pub fn greatest_page(&self, id: FileId) -> usize
        requires { id.0 < length (files_of self.now) }
        ensures { option_map (page_length (files_of self.now)) (slice_get (files_of self.now) id.0) ≡ Some result }
    {
        self.files[id.0 as usize].greatest as usize
    }

    /// Returns whether no script has a fault by these functions: each include names a file, and no page can be too long. For
    /// the functions of uIP this holds for every site that was read.
    pub fn are_scripts_sound<F: Calls>(&self) -> bool
        ensures { IsTrue result ↔ HasSoundScripts F.calling (files_of self.now) }
    {
        are_scripts_sound::<F>(self.image.bytes(), &self.files, &self.order)
    }
}
