/// What comes in over a line, item by item.
#[derive(Clone, Copy, Debug, PartialEq, Eq)]
pub enum Item {
    Byte(u8),
    /// A silence of half a second, on a terminal that reports it.
    Quiet,
}
