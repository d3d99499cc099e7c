use site_image::Place;

/// An entry that was read: the place of its file, the rank of its name in the order, and the offset of the next entry.
#[derive(Clone, Copy)]
pub(crate) struct EntryPlace {
    pub place: Place,
    pub slot: usize,
    pub next: usize,
}
