/// Where a file is in its image, in bytes from the start, and the greatest length of its page.
#[derive(Clone, Copy, Debug, PartialEq, Eq)]
pub struct Place {
    pub name_at: u32,
    pub name_len: u32,
    pub kind_at: u32,
    pub kind_len: u32,
    pub at: u32,
    pub len: u32,
    pub greatest: u32,
}
