//! The shell on one connection.

ghost use Rattle.std.specs.Prelude.{◌≡◌, ◌==◌, ◌&&◌, ℕ, length};
ghost use Rattle.app_events.specs.Prelude.{AppState};
ghost use Rattle.telnet_shell.specs.Reading.{is_quit};
ghost use Rattle.telnet_shell.specs.ShellSpec.{receive_all, receive_byte};

use crate::command::Command;
use crate::reply_text::{advance, due, fill_left, left_len};
use crate::telnet_input::receive;
use crate::{LONGEST_LINE, MOST_COMMANDS, MOST_SILENT_POLLS};
use app_events::{App, Ending, Now, Want};
use arrayvec::ArrayVec;
use generators::{Capture, take};
use httpd::Web;
use std::marker::Model;
use uip_wire::Port;
use web_pages::LARGEST_SEGMENT;

/// The port of Telnet.
pub const TELNET_PORT: u16 = 23;

/// The shell on one connection: the open line, the commands whose texts are not wholly acknowledged, and the capture of the
/// first one.
#[derive(Drop)]
pub struct Shell {
    /// The first bytes of the open line.
    pub line: ArrayVec<u8, LONGEST_LINE>,
    /// The line has more bytes than are stored.
    pub over: bool,
    /// The open sequence of the protocol: nothing, its first byte, or its first two.
    pub iac: [u8; 2],
    /// The first command is the one whose text is being sent.
    pub queue: ArrayVec<Command, MOST_COMMANDS>,
    /// A command arrived for which there was no room.
    pub lost: bool,
    /// `quit` was received.
    pub done: bool,
    /// The capture of the first command.
    pub capture: Capture,
    /// The acknowledged bytes of the first command's text.
    pub at: u32,
    /// The ticks with nothing outstanding since the last segment was received or sent.
    pub polls: u16,
}

impl Model for Shell {
    ghost use Rattle.telnet_shell.specs.State.{Shell};

    ghost Value = { Shell };

    ghost view = { λ shell. record {
      line = shell.line.items;
      over = shell.over;
      iac = shell.iac;
      queue = shell.queue.items;
      lost = shell.lost;
      done = shell.done;
      capture = shell.capture;
      at = shell.at;
      polls = shell.polls;
    } };
}

/// Returns whether a command is `quit`.
fn is_quit(command: Command) -> bool
    ensures { result ≡ is_quit command }
{
    match command {
        Command::Quit => true,
        _ => false,
    }
}

impl Shell {
    ghost use Rattle.telnet_shell.specs.ShellRepresents.{ShellRepresents, fresh_part};

    /// Returns a shell that has received nothing.
    fn new() -> Shell
        ensures { (port : ℕ) → ShellRepresents result (fresh_part port) }
    {
        Shell {
            line: ArrayVec::new(),
            over: false,
            iac: [0, 0],
            queue: ArrayVec::new(),
            lost: false,
            done: false,
            capture: Capture::Empty,
            at: 0,
            polls: 0,
        }
    }

    /// Receives a byte.
    fn receive(&mut self, byte: u8)
        ensures { (p : AppState) → ShellRepresents self.old p → ShellRepresents self.new (receive_byte p byte) }
    {
        let full = self.queue.is_full();
        if self.lost || self.done {
            return;
        }
        match receive(&mut self.line, &mut self.over, &mut self.iac, byte) {
            None => {}
            Some(command) => {
                if full {
                    self.lost = true;
                } else {
                    self.queue.push(command);
                    self.done = is_quit(command);
                }
            }
        }
    }

    /// Returns whether all was sent and acknowledged, to the end of `quit`.
    fn has_ended(&self) -> bool
        ensures { result ≡ (self.now.done && (length self.now.queue == 0)) }
    {
        self.done && self.queue.is_empty()
    }

    /// Receives each byte of a piece.
    pub(crate) fn receive_piece(&mut self, piece: &[u8])
        ensures { (p : AppState) → ShellRepresents self.old p → ShellRepresents self.new (receive_all p piece.now) }
    {
        for byte in piece {
            self.receive(*byte);
        }
    }
}

// The calls of the shell are not inlined into a desk, so that a page's calls there stay as small as those of the web server.
impl App for Shell {
    ghost use Rattle.file_tree.specs.Site.{SiteContent};
    ghost use Rattle.telnet_shell.specs.declared.shell.TheConstants.{TELNET_PORT};
    ghost use Rattle.telnet_shell.specs.ShellSpec.{shell_spec};
    ghost use Rattle.telnet_shell.specs.Lemmas.ShellLaws.{shell_lawful, shell_starts};
    ghost use Rattle.telnet_shell.specs.ShellRepresents.{ShellRepresents};
    ghost use Rattle.telnet_shell.specs.Lemmas.SameLeft.{same_session_left};

    type Shared = Web;

    ghost Config = { SiteContent };

    ghost config = { λ web. web.site };

    ghost numbers = { λ web. web.hits };

    ghost app_spec = { λ _. shell_spec };

    ghost represents = { λ a _ p. ShellRepresents a p };

    ghost served = { λ port. port == TELNET_PORT };

    fn serves(port: Port) -> bool {
        port.0 == TELNET_PORT
    }

    fn idle() -> Shell {
        Shell::new()
    }

    fn connected(&mut self, _shared: &mut Web, _port: Port) {
        *self = Shell::new();
    }

    #[inline(never)]
    fn newdata(&mut self, _shared: &mut Web, piece: &[u8]) {
        self.polls = 0;
        self.receive_piece(piece);
    }

    #[inline(never)]
    fn is_due(&self, _shared: &Web) -> bool {
        due(self.queue.as_slice(), &self.capture).is_some()
    }

    #[inline(never)]
    fn prepare(&mut self, _shared: &Web, now: &Now) {
        match due(self.queue.as_slice(), &self.capture) {
            Some(function) => self.capture = take(function, 0, now),
            None => {}
        }
    }

    #[inline(never)]
    fn want(&self, _shared: &Web) -> Want {
        if self.lost || self.polls == MOST_SILENT_POLLS {
            return Want::Abort;
        }
        if self.has_ended() {
            return Want::Close;
        }
        let left = left_len(self.queue.as_slice(), &self.capture) - self.at as usize;
        if left > 0 {
            Want::Send(LARGEST_SEGMENT.min(left))
        } else {
            Want::Nothing
        }
    }

    #[inline(never)]
    fn fill(&self, _shared: &Web, out: &mut [u8]) {
        fill_left(self.queue.as_slice(), &self.capture, self.at as usize, out);
    }

    #[inline(never)]
    fn acked(&mut self, _shared: &mut Web, count: usize) {
        self.polls = 0;
        self.at = advance(&mut self.queue, &mut self.capture, self.at, count);
    }

    fn polled(&mut self, _shared: &mut Web) {
        self.polls = MOST_SILENT_POLLS.min(self.polls.saturating_add(1));
    }

    fn ended(&mut self, _shared: &mut Web, _how: Ending) {}

    ghost lawful = { λ a _. shell_lawful (ShellRepresents a) };

    ghost starts = { λ _. shell_starts };

    ghost same_left = { λ a _ p q. same_session_left a p q };
}
