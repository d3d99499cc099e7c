/// The range of a part of an image, and where the next part begins, in bytes from the start.
#[derive(Clone, Copy, Debug, PartialEq, Eq)]
pub struct Part {
    pub at: usize,
    pub len: usize,
    pub next: usize,
}
