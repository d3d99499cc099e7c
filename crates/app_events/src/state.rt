/// The state of a connection (RFC 793, section 3.2).
/// [add: state] A variant.
#[derive(Clone, Copy, Debug, PartialEq, Eq)]
pub enum State {
    Closed,
    SynRcvd,
    Established,
    CloseWait,
    FinWait1,
    FinWait2,
    Closing,
    TimeWait,
    LastAck,
}
