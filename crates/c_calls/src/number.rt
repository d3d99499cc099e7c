//! A number that C reads.

ghost use Rattle.std.specs.Prelude.{◌≡◌};

use crate::status::OK;

/// A number that was read, with the status.
#[repr(C)]
#[derive(Clone, Copy, Debug, PartialEq, Eq)]
pub struct UipNumber {
    pub status: u32,
    pub number: u32,
}

impl UipNumber {
    /// Reports a status without a number.
    #[inline]
    pub fn unread(status: u32) -> UipNumber
        ensures { result ≡ record { status = status; number = 0 } }
    {
        UipNumber { status, number: 0 }
    }

    /// Reports a number that was read.
    #[inline]
    pub fn read(number: u32) -> UipNumber
        ensures { result ≡ record { status = OK; number = number } }
    {
        UipNumber { status: OK, number }
    }
}
