//! The indices of a node's twenty counters, in the order of docs/FORMATS.md.
//! [add: counter] A constant with its number, and `NO_COUNTER` raised by one.

/// Datagrams received.
pub const IP_IN: usize = 0;
/// Datagrams sent.
pub const IP_OUT: usize = 1;
/// Frames longer than a datagram.
pub const OVERLONG_FRAMES: usize = 2;
/// Datagrams that are too short.
pub const IP_SHORT: usize = 3;
/// Datagrams of another version, or with options.
pub const IP_VERSION: usize = 4;
/// Datagrams with a wrong length.
pub const IP_LENGTH: usize = 5;
/// Fragments.
pub const IP_FRAGMENT: usize = 6;
/// Datagrams with a wrong header checksum.
pub const IP_CHECKSUM: usize = 7;
/// Datagrams for another address.
pub const IP_NOT_OURS: usize = 8;
/// Datagrams of another protocol.
pub const IP_PROTOCOL: usize = 9;
/// ICMP messages received.
pub const ICMP_IN: usize = 10;
/// Echo replies sent.
pub const ICMP_OUT: usize = 11;
/// ICMP messages that are too short, or no echo request.
pub const ICMP_REFUSED: usize = 12;
/// ICMP messages with a wrong checksum.
pub const ICMP_CHECKSUM: usize = 13;
/// TCP segments received.
pub const TCP_IN: usize = 14;
/// TCP datagrams sent.
pub const TCP_OUT: usize = 15;
/// TCP segments that are too short, or have a wrong data offset.
pub const TCP_REFUSED: usize = 16;
/// TCP segments with a wrong checksum.
pub const TCP_CHECKSUM: usize = 17;
/// Retransmissions by the timer.
pub const TCP_AGAIN: usize = 18;
/// Plain SYNs to a served port for which there was no slot.
pub const NO_SLOT_LEFT: usize = 19;

/// The index after the last counter: no counter.
pub(crate) const NO_COUNTER: usize = 20;
