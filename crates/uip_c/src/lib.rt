//! The stack as a C library: a device that C keeps by a handle. `include/uip.h` is the contract for C.
//! [add: c-call] The file of its export, which takes the device out of the handle and puts it back.
#![tactic(auto)]

mod calls;
mod ether_open;
#[cfg(test)]
mod frame_tests;
mod guard_calls;
#[cfg(test)]
mod guard_tests;
mod handle;
mod held;
mod laws;
mod open_close;
#[cfg(test)]
mod query_tests;
mod status_calls;
#[cfg(test)]
mod tests;

pub use calls::{
    MIN_OUT, uip_drain, uip_feed, uip_input, uip_input_frame_area, uip_periodic,
    uip_periodic_datagram, uip_periodic_frame,
};
pub use ether_open::uip_open_ether;
pub use guard_calls::{uip_guard_counter, uip_protect};
pub use handle::UipDevice;
pub use held::{EtherWeb, Held};
pub use laws::{
    calls_from_c_are_reported, calls_from_c_keep_the_promise, constant_values,
    frames_from_c_are_exact, frames_from_c_keep_the_promise, line_from_c_is_served,
};
pub use open_close::{uip_close, uip_open};
pub use status_calls::{
    uip_connection, uip_counter, uip_hits, uip_is_idle, uip_query, uip_set_value, uip_ticks,
};
