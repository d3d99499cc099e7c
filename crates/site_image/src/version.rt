/// The version of an image.
#[derive(Clone, Copy, Debug, PartialEq, Eq)]
pub enum Version {
    /// Files have no content type of their own.
    One,
    /// Each file has a content type, which may be empty.
    Two,
}
