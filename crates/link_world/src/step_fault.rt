/// Why an act is refused.
#[derive(Clone, Copy, Debug, PartialEq, Eq)]
pub enum StepFault {
    /// The datagram's number is 0 or not yet sent.
    NoDatagram,
    /// The damaged offset is past the datagram.
    NoByte,
    /// The client is not idle.
    AlreadyOpen,
    /// The client is idle.
    NotOpen,
    /// Fewer numbers up to 65,535 are left than the act may need.
    Full,
    NoMemory,
}
