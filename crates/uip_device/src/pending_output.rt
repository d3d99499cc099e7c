//! The SLIP text of a datagram, written in pieces (RFC 1055).

ghost use Rattle.std.specs.Prelude.{◌≡◌, ◌<◌, ◌≤◌, ◌+◌, ◌*◌, ◌-◌, ◌++◌, ◌⊎◌, [], ◌∷◌, List, Option, Some, None, IfSome, is_some, length, take, true};
ghost use Rattle.packet_buffer.specs.Prelude.{datagram_in};
ghost use Rattle.uip_slip.specs.Prelude.{escaped};
ghost use Rattle.uip_wire.specs.declared.addr.Addr.{Addr as Address};
ghost use Rattle.sip_hash.specs.declared.key.Key.{Key};
ghost use Rattle.uip_node.specs.Prelude.{Reply};
ghost use Rattle.guarded_node.specs.Runs.{IsSentOver};
ghost use Rattle.guarded_node.specs.Wire.{leaving};
ghost use Rattle.uip_device.specs.Handing.{FillsRoom, IsPartWritten, text_to_come};
ghost use Rattle.uip_device.specs.Sending.{text_sent};

use app_events::App;
use uip_node::Node;
use uip_slip::{END, put_bytes, put_plain};
use uip_wire::LARGEST_DATAGRAM;

/// The longest SLIP text of a datagram, in bytes: each byte escaped, and an END on both sides.
pub const LARGEST_TEXT: usize = 2 * LARGEST_DATAGRAM + 2;

/// The bytes written at the start of the area, and after how many bytes of the datagram in the packet the text continues; `None` if all of
/// it was written.
#[derive(Clone, Copy, Debug, PartialEq, Eq)]
pub(crate) struct Written {
    pub wrote: usize,
    pub left: Option<usize>,
}

impl Written {
    /// Returns that nothing was written and nothing is pending.
    pub(crate) fn nothing() -> Written
        ensures { result ≡ record { wrote = 0; left = None } }
    {
        Written {
            wrote: 0,
            left: None,
        }
    }
}

/// The bytes of a piece that were put, and the length of the text in bytes.
#[derive(Clone, Copy, Debug)]
struct Run {
    count: usize,
    len: usize,
}

/// After a run without END and ESC, at most this many bytes are put one by one, since marks may be close together.
const MOST_ONE_BY_ONE: usize = 16;

/// Appends bytes of a piece, escaped, to a text of `len` bytes, as far as there is room: a run without END and ESC, and some bytes after it.
fn put_some(out: &mut [u8], len: usize, piece: &[u8]) -> Run
    requires some { 0 < length piece.now }
    requires room { len + 2 ≤ length out.old }
    ensures long { length out.new ≡ length out.old }
    ensures some { 0 < result.count }
    ensures within { result.count ≤ length piece.now }
    ensures fits { result.len ≤ length out.new }
    ensures bound { result.len ≤ len + 2 * result.count }
    ensures grows { len ≤ result.len }
    ensures text { take result.len out.new ≡ take len out.old ++ escaped (take result.count piece.now) }
{
    let fits = piece.len().min(out.len() - len);
    let plain = put_plain(out, len, &piece[..fits]);
    let end = len + plain;
    if plain == fits {
        return Run {
            count: plain,
            len: end,
        };
    }
    let count = plain
        + MOST_ONE_BY_ONE
            .min((out.len() - end) / 2)
            .min(piece.len() - plain);
    let len = put_bytes(out, end, &piece[plain..count]);
    Run { count, len }
}

/// Continues the text of a datagram after its first `at` bytes, as far as there is room.
pub(crate) fn write_on(out: &mut [u8], len: usize, datagram: &[u8], at: usize) -> Written
    requires within { at ≤ length datagram.now }
    requires room { len ≤ length out.old }
    ensures long { length out.new ≡ length out.old }
    ensures fits { result.wrote ≤ length out.new }
    ensures left { IfSome result.left (λ k. k ≤ length datagram.now) }
    ensures grows { len ≤ result.wrote }
    ensures more { len + 2 ≤ length out.old → len < result.wrote }
    ensures whole { len + 2 * (length datagram.now - at) < length out.old → result.left ≡ None }
    ensures full { FillsRoom datagram.now result.left result.wrote (length out.new) }
    ensures text { take result.wrote out.new ++ text_to_come datagram.now result.left
        ≡ take len out.old ++ text_to_come datagram.now (Some at) }
{
    let mut rest = &datagram[at..];
    let mut end = len;
    while !rest.is_empty() && out.len() - end >= 2 {
        let run = put_some(out, end, rest);
        end = run.len;
        rest = &rest[run.count..];
    }
    if !rest.is_empty() || end == out.len() {
        return Written {
            wrote: end,
            left: Some(datagram.len() - rest.len()),
        };
    }
    out[end] = END;
    Written {
        wrote: end + 1,
        left: None,
    }
}

/// Continues the text of the datagram that a node sent, after its first `at` bytes.
pub(crate) fn hand_on<A: App>(node: &Node<A>, at: usize, out: &mut [u8]) -> Written
    requires within { at ≤ length (datagram_in node.now.packet) }
    ensures long { length out.new ≡ length out.old }
    ensures fits { result.wrote ≤ length out.new }
    ensures left { IfSome result.left (λ k. k ≤ length (datagram_in node.now.packet)) }
    ensures more { 2 ≤ length out.old → 0 < result.wrote }
    ensures full { FillsRoom (datagram_in node.now.packet) result.left result.wrote (length out.new) }
    ensures text { take result.wrote out.new ++ text_to_come (datagram_in node.now.packet) result.left
        ≡ text_to_come (datagram_in node.now.packet) (Some at) }
{
    write_on(out, 0, node.packet(), at)
}

/// Puts an END at the start.
fn put_end(out: &mut [u8])
    requires { 0 < length out.old }
    ensures long { length out.new ≡ length out.old }
    ensures text { take 1 out.new ≡ 192 ∷ [] }
{
    out[..1].copy_from_slice(&[END]);
}

/// Writes the text of the datagram that a call of the guarded node sent, if it sent one, as far as there is room.
pub(crate) fn write_text<A: App>(node: &Node<A>, sent: Option<usize>, out: &mut [u8]) -> Written
    requires room { 0 < length out.old }
    ensures long { length out.new ≡ length out.old }
    ensures part { IsPartWritten (datagram_in node.now.packet) result.wrote result.left (length out.new) }
    ensures some { is_some sent ≡ true → 0 < result.wrote }
    ensures text { (key : Option Key) (own : Address) (replies : List Reply) → IsSentOver (leaving key) own replies sent node.now.packet
        → take result.wrote out.new ++ text_to_come (datagram_in node.now.packet) result.left ≡ text_sent key own replies }
{
    match sent {
        None => Written::nothing(),
        Some(_) => {
            put_end(out);
            write_on(out, 1, node.packet(), 0)
        }
    }
}
