//! The statuses of the calls, by the numbers of include/uip.h and include/uip_app.h.

/// Success.
pub const OK: u32 = 0;

/// The handle has no device.
pub const NO_DEVICE: u32 = 1;

/// An argument is out of its range: an area too small, no bytes or too many, or no such slot, counter or value.
pub const BAD_ARGUMENT: u32 = 2;

/// The handle to be opened has a device already.
pub const HAS_DEVICE: u32 = 3;

/// The site's image is bad.
pub const BAD_IMAGE: u32 = 4;

/// Out of memory.
pub const NO_MEMORY: u32 = 5;

/// Output is pending: `uip_drain` comes first.
pub const OUTPUT_PENDING: u32 = 6;

/// The device is on Ethernet and the call is for another link, or the other way round.
pub const WRONG_LINK: u32 = 7;

/// The connection cannot capture a message now, or fewer bytes are pending than the message answers.
pub const NOT_READY: u32 = 8;
