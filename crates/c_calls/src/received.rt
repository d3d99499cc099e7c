//! What a program reads of a connection.

ghost use Rattle.std.specs.Prelude.{◌≡◌, length, take};
ghost use Rattle.uip_wire.specs.Prelude.{written};
ghost use Rattle.c_calls.specs.Results.{flag_of};

use crate::status::OK;

/// What was read of a connection: whether it is ready for a message (1), its port, and how many bytes are pending. The port is 0 if the
/// connection is not open.
#[repr(C)]
#[derive(Clone, Copy, Debug, PartialEq, Eq)]
pub struct UipReceived {
    pub status: u32,
    pub ready: u32,
    pub port: u32,
    pub len: usize,
}

impl UipReceived {
    /// Reports a status with what was read.
    #[inline]
    fn new(status: u32, ready: u32, port: u32, len: usize) -> UipReceived
        ensures { result ≡ record { status = status; ready = ready; port = port; len = len } }
    {
        UipReceived {
            status,
            ready,
            port,
            len,
        }
    }

    /// Reports a connection that was read.
    #[inline]
    pub fn read(is_ready: bool, port: u16, len: usize) -> UipReceived
        ensures { result ≡ record { status = OK; ready = flag_of is_ready; port = port; len = len } }
    {
        UipReceived::new(OK, flag(is_ready), port as u32, len)
    }

    /// Reports a status without a connection.
    #[inline]
    pub fn unread(status: u32) -> UipReceived
        ensures { result ≡ record { status = status; ready = 0; port = 0; len = 0 } }
    {
        UipReceived::new(status, 0, 0, 0)
    }
}

/// Returns 1 for true, else 0.
#[inline]
pub fn flag(is_true: bool) -> u32
    ensures { result ≡ flag_of is_true }
{
    if is_true { 1 } else { 0 }
}

/// Copies as many of these bytes as an area has room for. Returns how many there are.
#[inline]
pub fn copy_prefix(bytes: &[u8], area: &mut [u8]) -> usize
    ensures len { result ≡ length bytes.now }
    ensures bytes { area.new ≡ written area.old 0 (take (length area.old) bytes.now) }
{
    let count = bytes.len().min(area.len());
    area[..count].copy_from_slice(&bytes[..count]);
    bytes.len()
}
