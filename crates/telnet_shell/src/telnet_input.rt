//! Reads what is received, byte by byte.

ghost use Rattle.std.specs.Prelude.{◌≡◌, ◌++◌, ◌∷◌, [], ℕ, List};
ghost use Rattle.telnet_shell.specs.Reading.{command_of, commands, line_after, next_awaits, refusal, tokens_at, tokens, awaits_after};
ghost use Rattle.telnet_shell.specs.Reading.Awaits.{Text};
ghost use Rattle.telnet_shell.specs.Reading.Token.{Byte};
ghost use Rattle.telnet_shell.specs.Reception.{IsLine, IsOpen, awaited, command_in, tokens_of};

use crate::LONGEST_LINE;
use crate::command::Command;
use arrayvec::ArrayVec;

/// The byte that begins a sequence of the protocol (RFC 854).
pub(crate) const IAC: u8 = 255;

/// The peer offers an option.
pub(crate) const WILL: u8 = 251;

/// The peer requests an option.
pub(crate) const DO: u8 = 253;

/// Refuses an option that the peer requests.
pub(crate) const WONT: u8 = 252;

/// Refuses an option that the peer offers.
pub(crate) const DONT: u8 = 254;

/// What a byte means.
pub(crate) enum Reported {
    Nothing,
    /// A byte of the text.
    Byte(u8),
    /// An option is to be refused.
    Answer(Command),
}

/// Returns what a byte means after an open sequence.
fn read_as(iac: [u8; 2], byte: u8) -> Reported
    ensures { tokens_of result ≡ tokens_at (awaited iac) byte }
{
    if iac[0] == 0 {
        if byte == IAC {
            Reported::Nothing
        } else {
            Reported::Byte(byte)
        }
    } else if iac[1] == 0 {
        if byte == IAC {
            Reported::Byte(IAC)
        } else {
            Reported::Nothing
        }
    } else {
        refuse(iac[1], byte)
    }
}

/// Returns the reply to an option.
fn refuse(verb: u8, choice: u8) -> Reported
    ensures { tokens_of result ≡ refusal verb choice }
{
    if verb == WILL {
        Reported::Answer(Command::Refuse(DONT, choice))
    } else if verb == DO {
        Reported::Answer(Command::Refuse(WONT, choice))
    } else {
        Reported::Nothing
    }
}

/// Returns the sequence that is open after a byte.
fn sequence_after(iac: [u8; 2], byte: u8) -> [u8; 2]
    ensures { awaited result ≡ next_awaits (awaited iac) byte }
{
    if iac[0] == 0 {
        if byte == IAC { [IAC, 0] } else { [0, 0] }
    } else if iac[1] == 0 {
        if byte >= WILL && byte <= DONT {
            [IAC, byte]
        } else {
            [0, 0]
        }
    } else {
        [0, 0]
    }
}

/// Returns the command of a whole line.
fn command_named(line: &[u8]) -> Command
    ensures { result ≡ command_of line.now }
{
    let empty: &[u8] = b"";
    let help: &[u8] = b"help";
    let stats: &[u8] = b"stats";
    let conns: &[u8] = b"conns";
    let ticks: &[u8] = b"ticks";
    let quit: &[u8] = b"quit";
    if line == empty {
        Command::Blank
    } else if line == help {
        Command::Help
    } else if line == stats {
        Command::Stats
    } else if line == conns {
        Command::Conns
    } else if line == ticks {
        Command::Ticks
    } else if line == quit {
        Command::Quit
    } else {
        Command::Other
    }
}

/// Returns the command of the line whose prefix is stored.
fn line_ended(kept: &[u8], over: bool) -> Command
    ensures { (line : List ℕ) → IsLine kept.now over line → result ≡ command_of line }
{
    if over {
        Command::Other
    } else {
        command_named(kept)
    }
}

/// Appends a byte to the line.
fn keep(kept: &mut ArrayVec<u8, LONGEST_LINE>, over: &mut bool, byte: u8)
    ensures { (line : List ℕ) → IsLine kept.old.items over.old line → IsLine kept.new.items over.new (line ++ byte ∷ []) }
{
    if kept.is_full() {
        *over = true;
    } else {
        kept.push(byte);
    }
}

/// Receives a byte of the text, which ends the line or extends it.
fn receive_text(kept: &mut ArrayVec<u8, LONGEST_LINE>, over: &mut bool, byte: u8) -> Option<Command>
    ensures open { (line : List ℕ) → IsLine kept.old.items over.old line
        → IsLine kept.new.items over.new (line_after line (Byte byte ∷ [])) }
    ensures command { (line : List ℕ) → IsLine kept.old.items over.old line → command_in result ≡ commands line (Byte byte ∷ []) }
{
    if byte == b'\n' {
        let command = line_ended(kept.as_slice(), *over);
        kept.clear();
        *over = false;
        Some(command)
    } else {
        if byte != b'\r' {
            keep(kept, over, byte);
        }
        None
    }
}

/// Receives a byte, which may complete a command.
pub(crate) fn receive(
    kept: &mut ArrayVec<u8, LONGEST_LINE>,
    over: &mut bool,
    iac: &mut [u8; 2],
    byte: u8,
) -> Option<Command>
    ensures open { (delivered : List ℕ) → IsOpen kept.old.items over.old iac.old delivered
        → IsOpen kept.new.items over.new iac.new (delivered ++ byte ∷ []) }
    ensures command { (delivered : List ℕ) → IsOpen kept.old.items over.old iac.old delivered
        → command_in result ≡ commands (line_after [] (tokens Text delivered)) (tokens_at (awaits_after Text delivered) byte) }
{
    let reported = read_as(*iac, byte);
    *iac = sequence_after(*iac, byte);
    match reported {
        Reported::Nothing => None,
        Reported::Answer(command) => Some(command),
        Reported::Byte(byte) => receive_text(kept, over, byte),
    }
}
