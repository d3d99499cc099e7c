//! The application on one connection.

use crate::record::{advanced, copied, copy_from, rest_len, see_bytes};
use crate::shared::{Message, OwnShared};
use crate::{MESSAGE_ROOM, MOST_SILENT_POLLS, RECEIVED_ROOM};
use app_events::{App, Ending, Now, Want};
use app_pair::CanPair;
use arrayvec::ArrayVec;
use uip_wire::{Port, WEB_PORT};

/// The application on one connection.
#[derive(Drop)]
pub struct OwnApp {
    /// The number of connections that were opened up to this one, modulo 2^32.
    pub ticket: u32,
    /// What was received and not yet taken.
    pub received: ArrayVec<u8, RECEIVED_ROOM>,
    /// Whether more was received than is stored.
    pub overrun: bool,
    /// The text of the message that was captured last.
    pub sending: ArrayVec<u8, MESSAGE_ROOM>,
    /// How many of its bytes are acknowledged.
    pub at: usize,
    /// How many messages were captured, modulo 2^32.
    pub count: u32,
    /// Whether the last message of the connection was captured.
    pub ended: bool,
    /// The ticks with nothing outstanding since it received or sent something.
    pub polls: u16,
}

impl OwnApp {
    ghost use Rattle.std.specs.Prelude.{◌≡◌, All, true, ℕ};
    ghost use Rattle.app_events.specs.Prelude.{IsByte};
    ghost use Rattle.own_app.specs.OwnSpec.{fresh_part};
    ghost use Rattle.own_app.specs.OwnRepresents.{OwnRepresents, after_capture, after_input, is_due, message_of, state_of};

    /// Returns the value of a connection with this ticket, which received nothing.
    pub(crate) fn new(ticket: u32) -> OwnApp
        ensures { (port : ℕ) → OwnRepresents result (fresh_part port ticket) }
    {
        OwnApp {
            ticket,
            received: ArrayVec::new(),
            overrun: false,
            sending: ArrayVec::new(),
            at: 0,
            count: 0,
            ended: false,
            polls: 0,
        }
    }

    /// Returns whether a message is the next of this connection, and may be captured.
    pub(crate) fn may_capture(&self, message: &Message) -> bool
        ensures due { result ≡ is_due (state_of self.now) (message_of message.now) }
        ensures bytes { All IsByte message.now.text.items }
    {
        see_bytes(message.text.as_slice());
        message.to == self.ticket
            && message.number == self.count
            && !self.overrun
            && !self.ended
            && self.at == self.sending.len()
            && message.taken as usize <= self.received.len()
    }

    /// Captures a message.
    pub(crate) fn capture(&mut self, message: &Message)
        requires due { is_due (state_of self.old) (message_of message.now) ≡ true }
        ensures { state_of self.new ≡ after_capture (state_of self.old) (message_of message.now) }
    {
        let taken = message.taken as usize;
        self.received = copied(&self.received.as_slice()[taken..]);
        self.sending = copied(message.text.as_slice());
        self.at = 0;
        self.count = self.count.wrapping_add(1);
        self.ended = message.last;
    }

    /// Stores the next bytes from the peer, or marks that they are too many.
    pub(crate) fn store(&mut self, piece: &[u8])
        ensures { state_of self.new ≡ after_input (state_of self.old) piece.now }
    {
        self.polls = 0;
        if self.overrun {
            return;
        }
        if self.received.try_extend_from_slice(piece).is_err() {
            self.overrun = true;
        }
    }
}

impl App for OwnApp {
    ghost use Rattle.std.specs.Prelude.{ℕ, List};
    ghost use Rattle.own_app.specs.OwnSpec.{is_own_port, numbers_of, own_spec};
    ghost use Rattle.own_app.specs.OwnRepresents.{OwnRepresents, message_of};
    ghost use Rattle.own_app.specs.Lemmas.OwnLaws.{own_lawful, own_same_left, own_starts};

    type Shared = OwnShared;

    // The open ports, which no call changes.
    ghost Config = { List ℕ };

    ghost config = { λ shared. shared.ports.items };

    ghost numbers = { λ shared. numbers_of shared.opened (message_of shared.message) };

    ghost app_spec = { λ _. own_spec };

    ghost represents = { λ a _ p. OwnRepresents a p };

    ghost served = { is_own_port };

    fn serves(port: Port) -> bool {
        port.0 != WEB_PORT
    }

    fn idle() -> OwnApp {
        OwnApp::new(0)
    }

    fn connected(&mut self, shared: &mut OwnShared, _port: Port) {
        shared.opened = shared.opened.wrapping_add(1);
        *self = OwnApp::new(shared.opened);
    }

    fn newdata(&mut self, _shared: &mut OwnShared, piece: &[u8]) {
        self.store(piece);
    }

    fn is_due(&self, shared: &OwnShared) -> bool {
        self.may_capture(&shared.message)
    }

    fn prepare(&mut self, shared: &OwnShared, _now: &Now) {
        if self.may_capture(&shared.message) {
            self.capture(&shared.message);
        }
    }

    fn want(&self, _shared: &OwnShared) -> Want {
        if self.overrun || self.polls == MOST_SILENT_POLLS {
            return Want::Abort;
        }
        let left = rest_len(self.sending.as_slice(), self.at);
        if left > 0 {
            Want::Send(left)
        } else if self.ended {
            Want::Close
        } else {
            Want::Nothing
        }
    }

    fn fill(&self, _shared: &OwnShared, out: &mut [u8]) {
        copy_from(self.sending.as_slice(), self.at, out);
    }

    fn acked(&mut self, _shared: &mut OwnShared, count: usize) {
        self.polls = 0;
        self.at = advanced(self.sending.as_slice(), self.at, count);
    }

    fn polled(&mut self, _shared: &mut OwnShared) {
        self.polls = MOST_SILENT_POLLS.min(self.polls.saturating_add(1));
    }

    fn ended(&mut self, _shared: &mut OwnShared, _how: Ending) {}

    ghost lawful = { λ a _. own_lawful (OwnRepresents a) };

    ghost starts = { λ _. own_starts };

    ghost same_left = { λ a _ p q. own_same_left a p q };
}

impl CanPair for OwnApp {
    ghost use Rattle.own_app.specs.Lemmas.OwnPairs.{own_can_pair};

    ghost can_pair = { λ _. own_can_pair };
}
