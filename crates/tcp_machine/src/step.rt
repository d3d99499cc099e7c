/// What a connection returns to its node after an event: what to send.
#[derive(Clone, Copy, Debug, PartialEq, Eq)]
pub enum Step {
    /// Send nothing.
    Drop,
    /// Send an ACK without text.
    Ack,
    SynAck { again: bool },
    Text { again: bool },
    Fin { again: bool },
    /// Send a RST with ACK.
    Reset,
    /// Ask the application what to send. `fresh`: new text was accepted, which must be acknowledged.
    Ask { fresh: bool },
}
