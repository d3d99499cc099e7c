//! The reply to an ICMP echo request (RFC 792), made in the packet in which the request was received. A request that fails a check, and any
//! other message, has a fate and leaves the packet unchanged.
#![tactic(auto)]

mod answer;
mod fate;
mod request;

pub use fate::IcmpFate;
pub use request::reply;
