use crate::file_id::FileId;
use site_image::Place;

/// The places of the files of an image, the order of their names, and the offset after the last entry.
#[derive(Drop)]
pub(crate) struct Table {
    pub files: Vec<Place>,
    pub order: Vec<FileId>,
    pub next: usize,
}
