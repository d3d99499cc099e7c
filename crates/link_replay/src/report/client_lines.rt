//! The line of a client, and the last line.

ghost use Rattle.std.specs.Prelude.{◌≡◌, ◌+◌, ◌≤◌, ◌++◌, length};
ghost use Rattle.link_replay.specs.Report.{clean_words, client_line as client_text, counts_line, state_word as word_of};
ghost use Rattle.link_replay.specs.Prelude.{code_side_shown};

use crate::report::line::Line;
use crate::world::side::Side;
use link_client::ClientState;

/// Makes the line of the client with this number.
pub(crate) fn client_line(show: bool, number: usize, side: &Side) -> Line
    ensures { result ≡ client_text show number (code_side_shown side.now) }
{
    let mut line = Line::new();
    line.put(b"client ");
    line.put_number(number as u64);
    line.put(b" ");
    line.put(state_word(side.client.state));
    line.put(b" ");
    line.put_number(side.received.len() as u64);
    line.put(b" ");
    put_clean(&mut line, show, side.first_stale);
    line.put(b"\n");
    line
}

/// Returns the word of a state.
fn state_word(state: ClientState) -> &'static [u8]
    ensures text { result.now ≡ word_of state }
    ensures short { length result.now ≤ 7 }
{
    match state {
        ClientState::Idle => b"idle",
        ClientState::Opening => b"opening",
        ClientState::Opened => b"open",
        ClientState::Closing => b"closing",
        ClientState::Closed => b"closed",
        ClientState::Ended => b"ended",
        ClientState::Reset => b"reset",
    }
}

/// Appends whether a client is clean.
fn put_clean(line: &mut Line, show: bool, first_stale: Option<u32>)
    requires { length line.old + 26 ≤ 256 }
    ensures text { line.new ≡ line.old ++ clean_words show first_stale }
    ensures len { length line.new ≤ length line.old + 26 }
{
    match first_stale {
        None => line.put(b"clean"),
        Some(number) => {
            line.put(b"stale");
            if show {
                line.put(b" ");
                line.put_number(u64::from(number));
            }
        }
    }
}

/// Makes the last line.
pub(crate) fn last_line(ticks: u32, datagrams: usize) -> Line
    ensures { result ≡ counts_line ticks datagrams }
{
    let mut line = Line::new();
    line.put(b"ticks ");
    line.put_number(u64::from(ticks));
    line.put(b" datagrams ");
    line.put_number(datagrams as u64);
    line.put(b"\n");
    line
}
