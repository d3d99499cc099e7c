/// The port of a web server (RFC 1700, "http").
pub const WEB_PORT: u16 = 80;

/// A TCP port.
#[derive(Clone, Copy, Debug, PartialEq, Eq)]
pub struct Port(pub u16);
