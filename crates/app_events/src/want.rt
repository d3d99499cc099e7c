/// What an application requests of its connection next.
#[derive(Clone, Copy, Debug, PartialEq, Eq)]
pub enum Want {
    Nothing,
    /// Send up to this many bytes, at least one.
    Send(usize),
    Close,
    Abort,
}
