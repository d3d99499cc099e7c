use file_tree::SiteError;

/// How a command for an image ends.
#[derive(Clone, Copy, Debug, PartialEq, Eq)]
pub enum SiteEnd {
    /// The whole text was written.
    Done,
    /// The shelf failed, or does not hold a file that is needed. Nothing was written.
    ShelfFault,
    /// The sink failed. A prefix of the text was written.
    WriteFault,
    /// The image, or the list from which one is to be made, has this first fault.
    Bad(SiteError),
    /// Memory ran out. Nothing was written.
    NoMemory,
}
