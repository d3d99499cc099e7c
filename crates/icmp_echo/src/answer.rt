//! Turns an echo request into its reply, in place (RFC 792, page 14).

ghost use Rattle.std.specs.Prelude.{◌≡◌, ◌≤◌, ◌++◌, ◌∷◌, None, length, take, drop, slice_range};
ghost use Rattle.icmp_echo.specs.Echo.{echo_fate, echo_message, echo_reply};
ghost use Rattle.uip_wire.specs.Prelude.{checksum_of};

use uip_wire::{Addr, checksum, get16, put16};

/// The first word of an echo request: its type and its code (RFC 792, page 14).
const REQUEST: u16 = 0x0800;

/// The checksum of a request that does not determine that of the reply, which may be 0 or 65535.
const AMBIGUOUS: u16 = 65535 - REQUEST;

/// Turns the echo request at the start of an area into its reply.
#[inline(always)]
pub(crate) fn answer(area: &mut [u8], total: usize)
    requires least { 28 ≤ total }
    requires most { total ≤ length area.old }
    requires asks { echo_fate (drop 20 (take total area.old)) ≡ None }
    ensures { area.new ≡ echo_reply (take total area.old) ++ drop total area.old }
{
    answer_whole(&mut area[..total]);
}

/// Turns a whole echo request into its reply.
#[inline(always)]
fn answer_whole(datagram: &mut [u8])
    requires long { 28 ≤ length datagram.old }
    requires asks { echo_fate (drop 20 datagram.old) ≡ None }
    ensures { datagram.new ≡ echo_reply datagram.old }
{
    exchange(datagram);
    answer_message(&mut datagram[20..]);
}

/// Exchanges the two addresses of a header, which leaves the sum of its words unchanged.
#[inline(always)]
fn exchange(datagram: &mut [u8])
    requires { 20 ≤ length datagram.old }
    ensures { datagram.new ≡ take 12 datagram.old ++ slice_range datagram.old 16 20 ++ slice_range datagram.old 12 16
        ++ drop 20 datagram.old }
{
    let source = Addr::get(datagram, 12);
    let target = Addr::get(datagram, 16);
    target.put(datagram, 12);
    source.put(datagram, 16);
}

/// Turns an echo request into its reply.
#[inline(always)]
fn answer_message(message: &mut [u8])
    requires { echo_fate message.old ≡ None }
    ensures { message.new ≡ echo_message (drop 4 message.old) }
{
    let sum = reply_sum(message);
    put16(message, 0, 0);
    put16(message, 2, sum);
}

/// Returns the checksum of the reply to a request whose own is right: the request's, updated for the word that is removed (RFC 1624). If
/// that sum is a zero, it does not determine which of the two zeros, and the checksum is computed anew.
#[inline(always)]
fn reply_sum(message: &[u8]) -> u16
    requires { echo_fate message.now ≡ None }
    ensures { result ≡ checksum_of (0 ∷ 0 ∷ 0 ∷ 0 ∷ drop 4 message.now) }
{
    let asked = get16(message, 2);
    if asked == AMBIGUOUS {
        return checksum(&message[4..]);
    }
    if asked > AMBIGUOUS {
        asked - AMBIGUOUS
    } else {
        asked + REQUEST
    }
}
