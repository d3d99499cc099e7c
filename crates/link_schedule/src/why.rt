/// What is bad at a line of a schedule.
#[derive(Clone, Copy, Debug, PartialEq, Eq)]
pub enum Why {
    /// The text is too long; the line is 0.
    Long,
    /// The line has no form.
    Form,
    /// There is one client too many.
    Clients,
    /// An earlier client has the same address and port.
    Ports,
    /// No earlier line made a client with this number.
    NoClient,
    /// No datagram with this number was sent yet.
    NoDatagram,
    /// The datagram has no byte at this offset.
    NoByte,
    /// The client to be opened is open.
    AlreadyOpen,
    /// The client was never opened.
    NotOpen,
    /// Too few numbers for datagrams are left.
    Full,
}
