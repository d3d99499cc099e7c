//! The four words of a client's socket.

ghost use Rattle.std.specs.Prelude.{◌≡◌};
ghost use Rattle.link_schedule.specs.Clients.{side_of as side_meant};

use crate::numbers::{addressed, within};
use crate::why::Why;
use uip_wire::{Addr, Port};

/// The address and port of a client, and how it cuts its text.
#[derive(Clone, Copy)]
pub struct ClientSide {
    pub addr: Addr,
    pub port: Port,
    pub mss: u16,
    pub seg: u16,
}

/// Reads the four words `ADDR PORT MSS SEG`.
pub fn side_of(addr: &[u8], port: &[u8], mss: &[u8], seg: &[u8]) -> Result<ClientSide, Why>
    ensures { result ≡ side_meant addr.now port.now mss.now seg.now }
{
    let addr = addressed(addr)?;
    let port = within(1, 65535, port)?;
    let mss = within(0, 65535, mss)?;
    let seg = within(1, 1460, seg)?;
    Ok(ClientSide {
        addr,
        port: Port(port as u16),
        mss: mss as u16,
        seg: seg as u16,
    })
}
