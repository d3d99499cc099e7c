//! The texts of commands.

ghost use Rattle.std.specs.Prelude.{◌≡◌, true, ◌+◌, ◌*◌, ◌≤◌, ◌++◌, [], length, take, drop};
ghost use Rattle.generators.specs.Prelude.{capture_text};
ghost use Rattle.generators.specs.declared.capture.Capture.TheVariants.{Empty};
ghost use Rattle.telnet_shell.specs.Transcript.{function_of, reply_with, transcript};
ghost use Rattle.telnet_shell.specs.Transmission.{IsTrailing, IsLeading, Passes, due, prefix_size, is_past, replies_left, stops_at};
ghost use Rattle.app_events.specs.Prelude.{AppState};
ghost use Rattle.telnet_shell.specs.declared.TheConstants.{MOST_COMMANDS};
ghost use Rattle.telnet_shell.specs.declared.reply_text.TheConstants.{LONGEST_SAID};

use crate::MOST_COMMANDS;
use crate::command::Command;
use crate::telnet_input::IAC;
use arrayvec::ArrayVec;
use generators::{Capture, fill_at, text_len};
use script_lang::Function;

/// No text of a command has more bytes.
const LONGEST_SAID: usize = 4300;

const HELP: &[u8] = b"help stats conns ticks quit\r\n> ";

const PROMPT: &[u8] = b"> ";

const LINE_END: &[u8] = b"\r\n> ";

const BYE: &[u8] = b"bye\r\n";

const UNKNOWN: &[u8] = b"?\r\n> ";

/// Returns the function whose capture a command shows.
pub(crate) fn shown_by(command: Command) -> Function
    ensures { result ≡ function_of command }
{
    match command {
        Command::Stats => Function::NetStats,
        Command::Conns => Function::TcpConnections,
        Command::Ticks => Function::Ticks,
        _ => Function::Unknown,
    }
}

/// Returns whether a command waits for its capture.
pub(crate) fn is_stopped(command: Command, capture: &Capture) -> bool
    ensures { result ≡ stops_at command capture.now }
{
    match command {
        Command::Stats | Command::Conns | Command::Ticks => match capture {
            Capture::Empty => true,
            _ => false,
        },
        _ => false,
    }
}

/// Returns the length of a command's text, in bytes.
pub(crate) fn reply_len(command: Command, capture: &Capture) -> usize
    ensures length { result ≡ length (reply_with command capture.now) }
    ensures some { 1 ≤ result }
    ensures short { result ≤ LONGEST_SAID }
{
    match command {
        Command::Refuse(_, _) => 3,
        Command::Help => 31,
        Command::Stats => text_len(capture) + 2,
        Command::Conns => text_len(capture) + 2,
        Command::Ticks => text_len(capture) + 4,
        Command::Quit => 5,
        Command::Blank => 2,
        Command::Other => 5,
    }
}

/// Copies a text from an offset on.
fn copy_from(text: &[u8], at: usize, out: &mut [u8])
    requires { at + length out.old ≤ length text.now }
    ensures { out.new ≡ take (length out.old) (drop at text.now) }
{
    let end = at + out.len();
    out.copy_from_slice(&text[at..end]);
}

/// Writes a capture's text and what follows it, from an offset on.
fn fill_made(capture: &Capture, tail: &[u8], at: usize, out: &mut [u8])
    requires { at + length out.old ≤ length (capture_text capture.now ++ tail.now) }
    ensures { out.new ≡ take (length out.old) (drop at (capture_text capture.now ++ tail.now)) }
{
    let made = text_len(capture);
    if made <= at {
        copy_from(tail, at - made, out);
    } else {
        let count = out.len().min(made - at);
        fill_at(capture, at, &mut out[..count]);
        copy_from(tail, 0, &mut out[count..]);
    }
}

/// Writes a command's text from an offset on.
fn fill_reply_text(command: Command, capture: &Capture, at: usize, out: &mut [u8])
    requires { at + length out.old ≤ length (reply_with command capture.now) }
    ensures { out.new ≡ take (length out.old) (drop at (reply_with command capture.now)) }
{
    match command {
        Command::Refuse(verb, choice) => copy_from(&[IAC, verb, choice], at, out),
        Command::Help => copy_from(HELP, at, out),
        Command::Stats => fill_made(capture, PROMPT, at, out),
        Command::Conns => fill_made(capture, PROMPT, at, out),
        Command::Ticks => fill_made(capture, LINE_END, at, out),
        Command::Quit => copy_from(BYE, at, out),
        Command::Blank => copy_from(PROMPT, at, out),
        Command::Other => copy_from(UNKNOWN, at, out),
    }
}

/// Returns the length of the texts of commands up to the first one that needs a capture.
fn rest_len(queue: &[Command]) -> usize
    requires { length queue.now ≤ MOST_COMMANDS }
    ensures length { result ≡ length (transcript queue.now []) }
    ensures short { result ≤ LONGEST_SAID * length queue.now }
{
    match queue {
        [] => 0,
        [command, rest @ ..] => {
            if is_stopped(*command, &Capture::Empty) {
                0
            } else {
                reply_len(*command, &Capture::Empty) + rest_len(rest)
            }
        }
    }
}

/// Writes the first part of the texts of commands that need no capture.
fn fill_rest(queue: &[Command], out: &mut [u8])
    requires { length out.old ≤ length (transcript queue.now []) }
    ensures { out.new ≡ take (length out.old) (transcript queue.now []) }
{
    match queue {
        [] => {}
        [command, rest @ ..] => {
            let count = out.len().min(reply_len(*command, &Capture::Empty));
            fill_reply_text(*command, &Capture::Empty, 0, &mut out[..count]);
            fill_rest(rest, &mut out[count..]);
        }
    }
}

/// Returns the length of a queue's text.
pub(crate) fn left_len(queue: &[Command], capture: &Capture) -> usize
    requires { length queue.now ≤ MOST_COMMANDS }
    ensures length { result ≡ length (replies_left queue.now capture.now) }
    ensures short { result ≤ LONGEST_SAID * MOST_COMMANDS }
{
    match queue {
        [] => 0,
        [command, rest @ ..] => {
            if is_stopped(*command, capture) {
                0
            } else {
                reply_len(*command, capture) + rest_len(rest)
            }
        }
    }
}

/// Writes the first command's text from an offset on, and then the texts of commands that need no capture.
fn fill_prefix(prefix: Command, capture: &Capture, rest: &[Command], at: usize, out: &mut [u8])
    requires place { at ≤ length (reply_with prefix capture.now) }
    requires enough { length out.old ≤ length (drop at (reply_with prefix capture.now) ++ transcript rest.now []) }
    ensures { out.new ≡ take (length out.old) (drop at (reply_with prefix capture.now) ++ transcript rest.now []) }
{
    let middle = (reply_len(prefix, capture) - at).min(out.len());
    let (begun, further) = out.split_at_mut(middle);
    fill_reply_text(prefix, capture, at, begun);
    fill_rest(rest, further);
}

/// Writes a queue's text from an offset in its first command's on.
#[tactic(auto, using(crate::specs::Lemmas::Speaking::from_prefix))]
pub(crate) fn fill_left(queue: &[Command], capture: &Capture, at: usize, out: &mut [u8])
    requires place { at ≤ prefix_size queue.now capture.now }
    requires enough { at + length out.old ≤ length (replies_left queue.now capture.now) }
    ensures { out.new ≡ take (length out.old) (drop at (replies_left queue.now capture.now)) }
{
    match queue {
        [] => {}
        [command, rest @ ..] => {
            if !is_stopped(*command, capture) {
                fill_prefix(*command, capture, rest, at, out);
            }
        }
    }
}

/// Returns whether the first command's text is wholly among the first bytes.
fn is_past(queue: &[Command], capture: &Capture, at: usize) -> bool
    ensures { result ≡ is_past queue.now capture.now at }
{
    match queue {
        [] => false,
        [command, ..] => !is_stopped(*command, capture) && reply_len(*command, capture) <= at,
    }
}

/// Removes the first command, and returns the offset in the next one.
fn pass_prefix(
    queue: &mut ArrayVec<Command, MOST_COMMANDS>,
    capture: &mut Capture,
    at: usize,
) -> usize
    requires { is_past queue.old.items capture.old at ≡ true }
    ensures { Passes queue.old.items capture.old at queue.new.items capture.new result }
{
    let prefix = queue.remove(0);
    let count = reply_len(prefix, capture);
    *capture = Capture::Empty;
    at - count
}

/// Removes the commands whose texts are wholly among the first bytes, and returns the offset in the first one that is left.
pub(crate) fn advance(
    queue: &mut ArrayVec<Command, MOST_COMMANDS>,
    capture: &mut Capture,
    at: u32,
    count: usize,
) -> u32
    requires { at + count ≤ length (replies_left queue.old.items capture.old) }
    ensures trailing { (p : AppState) → IsTrailing queue.old.items capture.old (at + count) p
        → IsTrailing queue.new.items capture.new result p }
    ensures place { IsLeading queue.new.items capture.new result }
{
    let mut place = at as usize + count.min(left_len(queue.as_slice(), capture));
    'passing: while is_past(queue.as_slice(), capture, place) {
        place = pass_prefix(queue, capture, place);
    }
    place as u32
}

/// Returns the function whose capture the first command waits for.
pub(crate) fn due(queue: &[Command], capture: &Capture) -> Option<Function>
    ensures { result ≡ due queue.now capture.now }
{
    match queue {
        [command, ..] if is_stopped(*command, capture) => Some(shown_by(*command)),
        _ => None,
    }
}
