/// The state of a client.
#[derive(Clone, Copy, Debug, PartialEq, Eq)]
pub enum ClientState {
    Idle,
    /// Its SYN was sent.
    Opening,
    Opened,
    /// It was closed, and still accepts text.
    Closing,
    /// It received the server's FIN while it was open.
    Closed,
    /// It received the server's FIN while it was closing.
    Ended,
    Reset,
}
