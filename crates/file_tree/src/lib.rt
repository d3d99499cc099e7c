//! A site: one image of files, with the place of each file and the order of their names. A site is loaded from a shelf, read
//! from bytes, or read in place, and finds a file by its name in a sorted index. Lists of files are packed into an image, and
//! an image is upgraded to version 2.
#![tactic(auto)]

mod entry_place;
mod entry_writer;
mod file_id;
mod image;
mod index;
mod kind_word;
mod load_fault;
mod packer;
mod pages;
mod shelf_reader;
mod site;
mod table;
mod table_reader;
mod upgrader;

pub use file_id::FileId;
pub use image::Image;
pub use kind_word::KindWord;
pub use load_fault::LoadFault;
pub use packer::{Entry, pack};
pub use shelf_reader::read_file;
pub use site::{FlashSite, Site, SiteOf};
pub use site_image::{LONGEST_IMAGE, Place, SiteError, SiteWhy, content_kind};
pub use uip_edge::Held;
pub use upgrader::upgrade;
