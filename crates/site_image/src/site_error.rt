//! The faults of an image.

/// What is wrong with an image, or with a list from which one is to be made.
#[derive(Clone, Copy, Debug, PartialEq, Eq)]
pub enum SiteWhy {
    /// It has more than 16,777,216 bytes.
    TooLong,
    /// It does not begin with the magic bytes of a version.
    Magic,
    /// It ends before a part is complete.
    Cut,
    /// It has more than 1024 files.
    TooMany,
    /// A name has 0 or more than 64 bytes, or a byte that is not allowed.
    Name,
    /// An earlier file has the name.
    Twice,
    /// A content type has more than 64 bytes, or a byte that is not allowed.
    Kind,
    /// Bytes follow the last entry.
    Rest,
    /// An include of a script names no file.
    Include,
    /// The page of a script can have 2^30 bytes or more.
    PageTooLong,
}

/// A fault, and the number of its entry, counted from 1; 0 is the whole image.
#[derive(Clone, Copy, Debug, PartialEq, Eq)]
pub struct SiteError {
    pub why: SiteWhy,
    pub entry: u32,
}
