/// How the serving of a line ended.
#[derive(Clone, Copy, Debug, PartialEq, Eq)]
pub enum ServeEnd {
    /// The link reported its end.
    End,
    /// A call of the link failed.
    LinkFault,
    /// A call of the sink failed.
    WriteFault,
    /// The number of items allowed was taken.
    Budget,
}
