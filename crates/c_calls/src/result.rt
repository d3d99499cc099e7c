//! The result of a call that may send.

ghost use Rattle.std.specs.Prelude.{◌≡◌};
ghost use Rattle.c_calls.specs.Results.{left_flag};

use crate::status::OK;

/// The result of a call: the bytes consumed, the bytes written at the start of the caller's area, and whether output is pending (1), which
/// `uip_drain` writes.
#[repr(C)]
#[derive(Clone, Copy, Debug, PartialEq, Eq)]
pub struct UipResult {
    pub status: u32,
    pub pending: u32,
    pub consumed: usize,
    pub written: usize,
}

/// Returns 1 if output is pending, else 0.
#[inline]
fn is_left(left: Option<usize>) -> u32
    ensures { result ≡ left_flag left }
{
    match left {
        None => 0,
        Some(_) => 1,
    }
}

impl UipResult {
    /// Reports a call that consumed and wrote these numbers of bytes, with the output that is left.
    #[inline]
    pub fn done(consumed: usize, written: usize, left: Option<usize>) -> UipResult
        ensures { result ≡ record { status = OK; pending = left_flag left; consumed = consumed; written = written } }
    {
        UipResult {
            status: OK,
            pending: is_left(left),
            consumed,
            written,
        }
    }

    /// Reports a status of a call that did nothing.
    #[inline]
    pub fn refused(status: u32) -> UipResult
        ensures { result ≡ record { status = status; pending = 0; consumed = 0; written = 0 } }
    {
        UipResult {
            status,
            pending: 0,
            consumed: 0,
            written: 0,
        }
    }
}
