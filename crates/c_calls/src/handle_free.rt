//! Closing a handle.

ghost use Rattle.std.specs.Prelude.{◌≡◌};
ghost use Rattle.c_calls.specs.Results.{closed_status};

use crate::status::{NO_DEVICE, OK};

/// Frees the device that was taken out of a handle. Returns the status of closing the handle.
#[inline(always)]
pub fn free<T: Drop>(taken: Option<T>) -> u32
    ensures { result ≡ closed_status taken }
{
    match taken {
        None => NO_DEVICE,
        Some(device) => {
            drop(device);
            OK
        }
    }
}
