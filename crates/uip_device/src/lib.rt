//! A device: a node with an application, whose caller feeds it what was received and takes what is sent. The web server of a device has
//! scripts that show values, which the caller sets. Only `new` and `open_web` allocate memory (measured).
#![tactic(auto)]

mod datagrams;
mod device;
mod device_web;
mod laws;
mod node_status;
mod pending_output;
mod query;
mod value_pages;
mod web_device;
mod web_setup;

pub use device::{Device, FeedResult};
pub use device_web::{DeviceWeb, FlashWeb};
pub use laws::{calls_are_reported, calls_keep_the_promise, constant_values, line_is_served};
pub use node_status::{is_node_idle, node_counter, node_row, node_ticks};
pub use pending_output::LARGEST_TEXT;
pub use query::{LONGEST_QUERY, Query, QueryRead};
pub use value_pages::ValuePages;
pub use web_device::{WebDevice, node_hits, node_query, set_node_value};
pub use web_setup::{OpenFault, open_shared, open_web};

#[cfg(test)]
mod tests;
