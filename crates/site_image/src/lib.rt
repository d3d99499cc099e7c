//! The image of a site: one list of bytes that represents a list of files, in two versions. Version 2 gives each file a content
//! type. This crate has the grammar, the table of faults, and the reading and writing of parts; `file_tree` has the site that
//! is loaded from an image.
#![tactic(auto)]

mod head;
mod image_writer;
mod kinds;
mod laws;
mod names;
mod part;
mod parts;
mod place;
mod site_error;
mod version;

pub use head::read_head;
pub use image_writer::{push_entry, push_head};
pub use kinds::{content_kind, is_script};
pub use laws::{constant_values, one_reading};
pub use names::{is_kind, is_name};
pub use part::Part;
pub use parts::{content_part, kind_part, name_part};
pub use place::Place;
pub use site_error::{SiteError, SiteWhy};
pub use version::Version;

/// The greatest size of an image, in bytes.
pub const LONGEST_IMAGE: usize = 16_777_216;

/// The greatest number of files of a site.
pub const MOST_FILES: usize = 1024;

/// The greatest length of a file's name, in bytes.
pub const LONGEST_NAME: usize = 64;

/// The greatest length of a file's content type, in bytes.
pub const LONGEST_KIND: usize = 64;

/// A page is too long if its greatest length is this number of bytes or more.
pub const PAGE_LIMIT: usize = 1_073_741_824;

/// The length of a page's head, the status line and two header lines, in bytes.
pub const HEAD_LEN: usize = 53;

/// The length of `Content-type: ` and of the line end with the empty line after it, in bytes.
pub const KIND_LINE_LEN: usize = 18;
