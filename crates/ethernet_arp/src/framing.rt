//! Frames after their length.

ghost use Rattle.std.specs.Prelude.{◌≡◌, ◌≤◌, ◌+◌, List, length, take};
ghost use Rattle.ethernet_arp.specs.Prelude.{framed, arp_reply, wrapped, Act, Knows, host_of};

use crate::arp::Arp;
use crate::mac::Mac;
use crate::packets::put_prefix;
use crate::received::reply;
use crate::sent::wrap;
use crate::sizes::{ARP_FRAME, LARGEST_FRAMED, SMALLEST_DATAGRAM};
use uip_wire::{Addr, LARGEST_DATAGRAM, put16};

/// Writes the frame for a datagram after its length, and returns how many bytes these are.
pub(crate) fn frame_datagram(arp: &Arp, datagram: &[u8], out: &mut [u8]) -> usize
    requires least { SMALLEST_DATAGRAM ≤ length datagram.now }
    requires most { length datagram.now ≤ LARGEST_DATAGRAM }
    requires room { LARGEST_FRAMED ≤ length out.old }
    ensures within { result ≤ length out.new }
    ensures text { (acts : List Act) → Knows arp.now acts
        → take result out.new ≡ framed (wrapped (host_of arp.now) acts datagram.now) }
{
    let (length, frame) = out.split_at_mut(2);
    let len = wrap(arp, datagram, frame);
    put16(length, 0, len as u16);
    2 + len
}

/// Writes the reply to a request from this pair after its length, and returns how many bytes these are.
pub(crate) fn frame_reply(arp: &Arp, addr: Addr, mac: Mac, out: &mut [u8]) -> usize
    requires { LARGEST_FRAMED ≤ length out.old }
    ensures len { result ≡ ARP_FRAME + 2 }
    ensures text { take result out.new
        ≡ framed (arp_reply (host_of arp.now) (record { addr = addr.0; mac = mac.0 })) }
{
    let (length, frame) = out.split_at_mut(2);
    put_prefix(frame, &reply(arp, addr, mac));
    put16(length, 0, ARP_FRAME as u16);
    2 + ARP_FRAME
}
