//! A device on a link that carries datagrams in frames: a node with an application, and the link. Its caller passes in a received frame or
//! calls a slot, and at most one frame is sent.
#![tactic(auto)]

mod datagrams;
mod device;
mod ether;
mod frames;
mod laws;
mod network;
#[cfg(test)]
mod tests;
pub mod worked;

pub use datagrams::Datagrams;
pub use device::FrameDevice;
pub use ether::Ethernet;
pub use frames::{Decoded, Frames, LARGEST_OUT};
pub use laws::{
    ether_frames_are_of_the_line, ether_frames_go_home, frame_calls_are_exact,
    frame_calls_keep_the_promise,
};
pub use network::Network;
