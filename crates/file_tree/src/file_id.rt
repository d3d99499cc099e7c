/// The number of a file in its site, counted from 0 in the order of the image.
#[derive(Clone, Copy, Debug, PartialEq, Eq)]
pub struct FileId(pub u16);
