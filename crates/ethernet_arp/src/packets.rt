//! Frames and ARP packets that are sent (RFC 894, RFC 826).

ghost use Rattle.std.specs.Prelude.{◌≡◌, ◌≤◌, ◌++◌, length};
ghost use Rattle.uip_wire.specs.Prelude.{word_bytes, written};
ghost use Rattle.ethernet_arp.specs.Frames.{arp_packet, frame_with};

use crate::mac::Mac;
use crate::sizes::{ARP_FRAME, SMALLEST_FRAME};
use uip_wire::Addr;

/// The type of a payload that is a datagram (RFC 894).
pub(crate) const DATAGRAM: u16 = 0x0800;

/// The type of a payload that is an ARP packet (RFC 826).
pub(crate) const ARP: u16 = 0x0806;

/// The operation of a packet that requests a hardware address.
pub(crate) const REQUEST: u8 = 1;

/// The operation of a packet that replies with a hardware address.
pub(crate) const REPLY: u8 = 2;

/// Writes a part to the start of an area.
pub(crate) fn put_prefix(out: &mut [u8], part: &[u8])
    requires { length part.now ≤ length out.old }
    ensures { out.new ≡ written out.old 0 part.now }
{
    out[..part.len()].copy_from_slice(part);
}

/// Returns the bytes of a frame before its datagram.
pub(crate) fn datagram_head(to: Mac, from: Mac) -> [u8; SMALLEST_FRAME]
    ensures { result ≡ to.0 ++ from.0 ++ word_bytes 2048 }
{
    let [to0, to1, to2, to3, to4, to5] = to.0;
    let [from0, from1, from2, from3, from4, from5] = from.0;
    [
        to0, to1, to2, to3, to4, to5, from0, from1, from2, from3, from4, from5, 8, 0,
    ]
}

/// Returns a frame with an ARP packet from a host.
pub(crate) fn arp_frame(
    to: Mac,
    operation: u8,
    own: Addr,
    mac: Mac,
    target_mac: Mac,
    target: Addr,
) -> [u8; ARP_FRAME]
    ensures { result ≡ frame_with to.0 mac.0 2054 (arp_packet operation mac.0 own.0 target_mac.0 target.0) }
{
    let [to0, to1, to2, to3, to4, to5] = to.0;
    let [mac0, mac1, mac2, mac3, mac4, mac5] = mac.0;
    let [own0, own1, own2, own3] = own.0;
    let [their0, their1, their2, their3, their4, their5] = target_mac.0;
    let [target0, target1, target2, target3] = target.0;
    [
        to0, to1, to2, to3, to4, to5, mac0, mac1, mac2, mac3, mac4, mac5, 8, 6, 0, 1, 8, 0, 6, 4,
        0, operation, mac0, mac1, mac2, mac3, mac4, mac5, own0, own1, own2, own3, their0, their1,
        their2, their3, their4, their5, target0, target1, target2, target3,
    ]
}
