//! The text of a row of the table of connections.

ghost use Rattle.std.specs.Prelude.{◌≡◌, ◌+◌, ◌++◌, ◌≤◌, ◌<◌, decimal, length, take};
ghost use Rattle.generators.specs.Text.{state_name, waiting_mark, row_text};

use crate::numbers::{PLACES, byte_len, decimal_len, put_digits};
use crate::parts::{Place, put};
use crate::written::Written;
use app_events::{Row, State};
use uip_wire::copy_bytes;

/// The length of what is the same in each row: the ends of the cells, three dots, a colon and the mark.
const FIXED_LEN: usize = 8 + 5 * 9 + 3 + 1 + 1 + 12;

/// Returns the name of a state as pages show it.
/// [add: state] Its name in a row of a page.
#[inline(always)]
fn name_of(state: State) -> &'static [u8]
    ensures text { result.now ≡ state_name state }
    ensures short { length result.now ≤ 20 }
{
    match state {
        State::Closed => b"CLOSED",
        State::SynRcvd => b"SYN-RCVD",
        State::Established => b"ESTABLISHED",
        State::CloseWait => b"CLOSE-WAIT",
        State::FinWait1 => b"FIN-WAIT-1",
        State::FinWait2 => b"FIN-WAIT-2",
        State::Closing => b"CLOSING",
        State::TimeWait => b"TIME-WAIT",
        State::LastAck => b"LAST-ACK",
    }
}

/// Returns the mark of a connection with something outstanding, or a space.
fn mark_of(waiting: bool) -> &'static [u8]
    ensures text { result.now ≡ waiting_mark waiting }
    ensures short { length result.now ≤ 20 }
{
    if waiting { b"*" } else { b" " }
}

/// Room for the text of any row, in bytes.
const ROW_ROOM: usize = 192;

/// Appends a piece to the text at the start of the room, and returns the new length.
#[inline(always)]
fn append(room: &mut [u8], len: usize, piece: &[u8]) -> usize
    requires { len + length piece.now ≤ length room.old }
    ensures long { length room.new ≡ length room.old }
    ensures end { result ≡ len + length piece.now }
    ensures text { take result room.new ≡ take len room.old ++ piece.now }
{
    let end = len + piece.len();
    room[len..end].copy_from_slice(piece);
    end
}

/// Appends a number.
fn append_number(room: &mut [u8], len: usize, number: u32) -> usize
    requires { len + 10 ≤ length room.old }
    ensures long { length room.new ≡ length room.old }
    ensures bound { result ≤ len + 10 }
    ensures text { take result room.new ≡ take len room.old ++ decimal number }
{
    if number < 10 {
        return append(room, len, &[b'0' + number as u8]);
    }
    append_digits(room, len, number)
}

/// Appends the digits of a number of any length. It is a function of its own because a row has nine numbers.
#[inline(never)]
fn append_digits(room: &mut [u8], len: usize, number: u32) -> usize
    requires { len + 10 ≤ length room.old }
    ensures long { length room.new ≡ length room.old }
    ensures bound { result ≤ len + 10 }
    ensures text { take result room.new ≡ take len room.old ++ decimal number }
{
    let mut places = [0; PLACES];
    let at = put_digits(&mut places, number);
    let end = len + PLACES - at;
    copy_bytes(&mut room[len..end], &places[at..]);
    end
}

/// Appends a number and its terminator.
#[inline(always)]
fn append_ended(room: &mut [u8], len: usize, number: u32, end: &[u8]) -> usize
    requires { len + 10 + length end.now ≤ length room.old }
    ensures long { length room.new ≡ length room.old }
    ensures bound { result ≤ len + 10 + length end.now }
    ensures text { take result room.new ≡ take len room.old ++ decimal number ++ end.now }
{
    let numbered = append_number(room, len, number);
    append(room, numbered, end)
}

/// Writes the text of a row to the start of the room, and returns its length.
#[tactic(auto, unfolding(crate::specs::Text::row_parts))]
fn row_into(row: &Row, room: &mut [u8]) -> usize
    requires { length room.old ≡ ROW_ROOM }
    ensures within { result ≤ ROW_ROOM }
    ensures text { take result room.new ≡ row_text row.now }
{
    let peer = row.peer.0;
    let begun = append(room, 0, b"<tr><td>");
    let slot = append_ended(room, begun, row.slot as u32, b"</td><td>");
    let one = append_ended(room, slot, peer[0] as u32, b".");
    let two = append_ended(room, one, peer[1] as u32, b".");
    let three = append_ended(room, two, peer[2] as u32, b".");
    let four = append_ended(room, three, peer[3] as u32, b":");
    let port = append_ended(room, four, row.port.0 as u32, b"</td><td>");
    let named = append(room, port, name_of(row.state));
    let state = append(room, named, b"</td><td>");
    let tries = append_ended(room, state, row.tries as u32, b"</td><td>");
    let count = append_ended(room, tries, row.count as u32, b"</td><td>");
    let marked = append(room, count, mark_of(row.waiting));
    append(room, marked, b"</td></tr>\r\n")
}

impl Written for Row {
    ghost text = { row_text };

    ghost longest = { 420 };

    fn len(&self) -> usize {
        let peer = self.peer.0;
        FIXED_LEN
            + byte_len(self.slot)
            + byte_len(peer[0])
            + byte_len(peer[1])
            + byte_len(peer[2])
            + byte_len(peer[3])
            + decimal_len(self.port.0 as u32)
            + name_of(self.state).len()
            + byte_len(self.tries)
            + byte_len(self.count)
    }

    fn put(&self, place: Place, out: &mut [u8]) -> Place {
        let mut room = [0u8; ROW_ROOM];
        let len = row_into(self, &mut room);
        put(place, out, &room[..len])
    }
}
