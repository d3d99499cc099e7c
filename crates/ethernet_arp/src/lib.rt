//! Ethernet with ARP (RFC 894, RFC 826): a node's datagrams in frames, each to the hardware address that its target taught last. Over a
//! line of bytes each frame follows its length.
#![tactic(auto)]

mod arp;
mod ether_line;
mod ether_loop;
mod frame_part;
mod framing;
mod laws;
mod mac;
mod packets;
mod received;
mod sent;
mod sizes;

pub use arp::Arp;
pub use ether_loop::serve_ether;
pub use laws::{constant_values, datagrams_fit_frames, datagrams_go_home, frames_bring_bytes};
pub use mac::Mac;
pub use received::{Taken, take};
pub use sent::{wrap, wrap_via};
pub use sizes::{ARP_ENTRIES, ARP_FRAME, ARP_TICKS, LARGEST_FRAME, SMALLEST_FRAME};
