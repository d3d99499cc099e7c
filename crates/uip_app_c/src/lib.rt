//! A device on Ethernet with an application of the program's own, as a C library. `include/uip_app.h` is the contract for C.
#![tactic(auto)]

mod calls;
mod guard_calls;
mod handle;
mod held;
mod laws;
mod open_close;
#[cfg(test)]
mod tests;

pub use calls::{
    uip_app_input_frame_area, uip_app_listen, uip_app_periodic_frame, uip_app_read, uip_app_write,
};
pub use guard_calls::{uip_app_guard_counter, uip_app_protect};
pub use handle::AppDevice;
pub use held::{Held, OwnEther};
pub use laws::{app_calls_are_exact, app_calls_keep_the_promise};
pub use open_close::{uip_app_close, uip_app_open};
