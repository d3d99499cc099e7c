//! A device on Ethernet with web pages and an application of the program's own, as a C library. `include/uip_both.h` is the contract for C.
#![tactic(auto)]

mod calls;
mod device;
mod guard_calls;
mod handle;
mod held;
mod laws;
mod open_close;
mod pages;
mod status_calls;
#[cfg(test)]
mod tests;

pub use calls::{uip_input_frame_area, uip_listen, uip_periodic_frame, uip_read, uip_write};
pub use guard_calls::{uip_guard_counter, uip_protect};
pub use handle::UipDevice;
pub use held::{BothApps, BothEther, Held};
pub use laws::{both_calls_are_exact, both_calls_keep_the_promise};
pub use open_close::{uip_close, uip_open_ether};
pub use status_calls::{
    uip_connection, uip_counter, uip_hits, uip_is_idle, uip_query, uip_set_value, uip_ticks,
};
