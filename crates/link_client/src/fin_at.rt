/// The progress of a client's FIN.
#[derive(Clone, Copy, Debug, PartialEq, Eq)]
pub enum FinAt {
    NotSent,
    Out,
    Acked,
}
