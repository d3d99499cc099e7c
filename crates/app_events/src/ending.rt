/// Why a connection ended that its application did not close.
#[derive(Clone, Copy, Debug, PartialEq, Eq)]
pub enum Ending {
    /// The peer sent a RST.
    Reset,
    /// What was outstanding was retransmitted up to the limit, and never acknowledged.
    TimedOut,
}
