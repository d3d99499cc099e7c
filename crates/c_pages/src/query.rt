//! A query that C reads.

ghost use Rattle.std.specs.Prelude.{◌≡◌};

use c_calls::OK;
use uip_device::QueryRead;

/// A text that was read, with the status: its length in bytes, and the hit that brought it.
#[repr(C)]
#[derive(Clone, Copy, Debug, PartialEq, Eq)]
pub struct UipQuery {
    pub status: u32,
    pub hit: u32,
    pub len: usize,
}

impl UipQuery {
    /// Reports a status without a text.
    #[inline]
    pub fn unread(status: u32) -> UipQuery
        ensures { result ≡ record { status = status; hit = 0; len = 0 } }
    {
        UipQuery {
            status,
            hit: 0,
            len: 0,
        }
    }

    /// Reports a query that was read.
    #[inline]
    pub fn read(query: QueryRead) -> UipQuery
        ensures { result ≡ record { status = OK; hit = query.hit; len = query.len } }
    {
        UipQuery {
            status: OK,
            hit: query.hit,
            len: query.len,
        }
    }
}
