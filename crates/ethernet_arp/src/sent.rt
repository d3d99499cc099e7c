//! The frame of a datagram that is sent (RFC 894).

ghost use Rattle.std.specs.Prelude.{◌≤◌, List, length};
ghost use Rattle.ethernet_arp.specs.Prelude.{frame_with, arp_request, wrapped, wrapped_to, wrapped_via, Act, Knows, host_of, in_table, Puts};

use crate::arp::Arp;
use crate::mac::{BROADCAST, Mac};
use crate::packets::{REQUEST, arp_frame, datagram_head, put_prefix};
use crate::sizes::{ARP_FRAME, LARGEST_FRAME, SMALLEST_DATAGRAM, SMALLEST_FRAME};
use uip_wire::{Addr, LARGEST_DATAGRAM};

/// Writes the frame for a datagram with this next hop, and returns its length in bytes: to the hardware address of the hop, if it is known.
/// Else it is the request for that address, and the datagram is lost.
pub fn wrap_via(arp: &Arp, hop: Addr, datagram: &[u8], out: &mut [u8]) -> usize
    requires most { length datagram.now ≤ LARGEST_DATAGRAM }
    requires room { LARGEST_FRAME ≤ length out.old }
    ensures within { result ≤ LARGEST_FRAME }
    ensures table { Puts (wrapped_to (host_of arp.now) hop.0 (in_table arp.now hop.0) datagram.now)
        result out.old out.new }
    ensures puts { (acts : List Act) → Knows arp.now acts
        → Puts (wrapped_via (host_of arp.now) acts hop.0 datagram.now) result out.old out.new }
{
    match arp.known(hop) {
        Some(mac) => put_datagram(mac, arp.mac, datagram, out),
        None => put_request(arp, hop, out),
    }
}

/// Writes the frame for a datagram whose next hop is its destination, as `wrap_via`.
pub fn wrap(arp: &Arp, datagram: &[u8], out: &mut [u8]) -> usize
    requires least { SMALLEST_DATAGRAM ≤ length datagram.now }
    requires most { length datagram.now ≤ LARGEST_DATAGRAM }
    requires room { LARGEST_FRAME ≤ length out.old }
    ensures within { result ≤ LARGEST_FRAME }
    ensures puts { (acts : List Act) → Knows arp.now acts
        → Puts (wrapped (host_of arp.now) acts datagram.now) result out.old out.new }
{
    wrap_via(arp, Addr::get(datagram, 16), datagram, out)
}

/// Writes the frame of a datagram.
fn put_datagram(to: Mac, from: Mac, datagram: &[u8], out: &mut [u8]) -> usize
    requires most { length datagram.now ≤ LARGEST_DATAGRAM }
    requires room { LARGEST_FRAME ≤ length out.old }
    ensures within { result ≤ LARGEST_FRAME }
    ensures puts { Puts (frame_with to.0 from.0 2048 datagram.now) result out.old out.new }
{
    let (head, rest) = out.split_at_mut(SMALLEST_FRAME);
    head.copy_from_slice(&datagram_head(to, from));
    put_prefix(rest, datagram);
    SMALLEST_FRAME + datagram.len()
}

/// Writes the request for the hardware address of a target.
fn put_request(arp: &Arp, target: Addr, out: &mut [u8]) -> usize
    requires { LARGEST_FRAME ≤ length out.old }
    ensures within { result ≤ LARGEST_FRAME }
    ensures puts { Puts (arp_request (host_of arp.now) target.0) result out.old out.new }
{
    let nobody = Mac([0; 6]);
    put_prefix(
        out,
        &arp_frame(BROADCAST, REQUEST, arp.own, arp.mac, nobody, target),
    );
    ARP_FRAME
}
