//! What the libraries for C have in common: the statuses, the results of calls, and how a call uses the device of a handle.
#![tactic(auto)]

mod guard_counts;
mod handle_free;
mod laws;
mod number;
mod read_device;
mod received;
mod result;
mod status;

pub use guard_counts::guard_count;
pub use handle_free::free;
pub use laws::constant_values;
pub use number::UipNumber;
pub use received::{UipReceived, copy_prefix, flag};
pub use result::UipResult;
pub use status::{
    BAD_ARGUMENT, BAD_IMAGE, HAS_DEVICE, NO_DEVICE, NO_MEMORY, NOT_READY, OK, OUTPUT_PENDING,
    WRONG_LINK,
};
