//! The calls of a client (RFC 793).

ghost use Rattle.std.specs.Prelude.{◌≡◌, ◌+◌, ◌≤◌, ◌&&◌, ℕ, [], List, Some, is_some, length, slice_range};
ghost use Rattle.link_client.specs.Calls.{Did, DidAccepting, FitsRequest, KeepsAfter, can_abort, has_more_to_send};
ghost use Rattle.link_client.specs.Calls.{has_spoken, client_receives, is_opened, abstract_client, client_hands};
ghost use Rattle.link_client.specs.Client.{client_aborts, client_again, client_closes, client_opens, idle, advertises_window};

use crate::client_state::ClientState;
use crate::fin_at::FinAt;
use crate::input::receive;
use crate::setup::Setup;
use crate::steps::took;
use crate::took::Took;
use std::marker::Model;
use uip_wire::{LARGEST_DATAGRAM, Seq};

/// A client of a replay.
#[derive(Clone, Copy, Debug, PartialEq, Eq)]
pub struct Client {
    pub setup: Setup,
    pub state: ClientState,
    /// The bytes of its request that are acknowledged.
    pub acked: u32,
    /// The bytes of its request that are outstanding.
    pub out: u16,
    pub fin: FinAt,
    /// RCV.NXT: the number that it expects next.
    pub rcv: Seq,
    pub window: u16,
}

impl Model for Client {
    ghost use Rattle.link_client.specs.State.{Client, IsClient};

    ghost Value = { Client };

    ghost view = { λ c. record {
      setup = c.setup;
      state = c.state;
      acked = c.acked;
      out = c.out;
      fin = c.fin;
      rcv = c.rcv;
      window = c.window;
    } };

    ghost invariant = { λ c. IsClient c.setup.seg c.out };

    ghost inverse = { λ c. record {
      setup = c.setup;
      state = c.state;
      acked = c.acked;
      out = c.out;
      fin = c.fin;
      rcv = c.rcv;
      window = c.window;
    } };
}

impl Client {
    /// Returns a client before its first act.
    pub fn new(setup: Setup) -> Client
        requires least { 1 ≤ setup.seg }
        requires most { setup.seg ≤ 1460 }
        ensures idle { (request : List ℕ) → abstract_client result request [] ≡ idle setup request }
        ensures fits { (request : List ℕ) → length request ≤ 4096 → FitsRequest result request }
    {
        Client {
            setup,
            state: ClientState::Idle,
            acked: 0,
            out: 0,
            fin: FinAt::NotSent,
            rcv: Seq(0),
            window: 65535,
        }
    }

    /// Sends its SYN. Returns the length in bytes of the datagram at the start of the area.
    #[tactic(auto, unfolding(crate::specs::Client::opens_by))]
    pub fn open_now(&mut self, area: &mut [u8]) -> usize
        requires idle { self.old.state ≡ ClientState.Idle }
        requires room { LARGEST_DATAGRAM ≤ length area.old }
        ensures fits { (request : List ℕ) → FitsRequest self.old request → FitsRequest self.new request }
        ensures setup { self.new.setup ≡ self.old.setup }
        ensures room { length area.new ≡ length area.old }
        ensures trailing { KeepsAfter (Some result) area.old area.new }
        ensures step { (request received : List ℕ) → Did (client_opens (abstract_client self.old request received))
            (abstract_client self.new request received) (Some result) area.new }
    {
        self.state = ClientState::Opening;
        self.send_syn(area)
    }

    /// Receives a datagram: a segment of its server, or else ignored. What it sends is at the start of the area.
    pub fn take(&mut self, request: &[u8], datagram: &[u8], area: &mut [u8]) -> Took
        requires fits { FitsRequest self.old request.now }
        requires most { length datagram.now ≤ LARGEST_DATAGRAM }
        requires room { LARGEST_DATAGRAM ≤ length area.old }
        ensures fits { FitsRequest self.new request.now }
        ensures setup { self.new.setup ≡ self.old.setup }
        ensures room { length area.new ≡ length area.old }
        ensures trailing { KeepsAfter result.sent area.old area.new }
        ensures inside { result.fresh_at + result.fresh_len ≤ length datagram.now }
        ensures none { result.fresh_len ≡ 0 → result.fresh_at ≡ 0 }
        ensures step { let fresh = slice_range datagram.now result.fresh_at (result.fresh_at + result.fresh_len) in
            DidAccepting (λ c. client_hands c (client_receives self.old.setup datagram.now)) request.now fresh
            self.old self.new result.sent area.new }
    {
        let Some(segment) = receive(&self.setup, datagram) else {
            return Took {
                sent: None,
                fresh_at: 0,
                fresh_len: 0,
            };
        };
        let delivered = self.take_segment(request, &segment, segment.text(datagram), area);
        took(&segment, delivered)
    }

    /// Retransmits what is outstanding, or sends an ACK. Returns the length in bytes of the datagram at the start of the area.
    #[tactic(auto, unfolding(crate::specs::Client::again_by))]
    pub fn again(&mut self, request: &[u8], area: &mut [u8]) -> Option<usize>
        requires fits { FitsRequest self.old request.now }
        requires room { LARGEST_DATAGRAM ≤ length area.old }
        ensures fits { FitsRequest self.new request.now }
        ensures setup { self.new.setup ≡ self.old.setup }
        ensures room { length area.new ≡ length area.old }
        ensures trailing { KeepsAfter result area.old area.new }
        ensures answers { is_some result ≡ has_spoken self.old.state }
        ensures step { (received : List ℕ) → Did (client_again (abstract_client self.old request.now received))
            (abstract_client self.new request.now received) result area.new }
    {
        match self.state {
            ClientState::Idle | ClientState::Reset => None,
            ClientState::Opening => Some(self.send_syn(area)),
            ClientState::Opened | ClientState::Closing | ClientState::Closed | ClientState::Ended =>
                Some(self.send_again(request, area)),
        }
    }

    /// Closes: its FIN is sent once its request is acknowledged. Returns a length if it sends something now.
    #[tactic(auto, unfolding(crate::specs::Client::closes_by))]
    pub fn close_now(&mut self, request: &[u8], area: &mut [u8]) -> Option<usize>
        requires fits { FitsRequest self.old request.now }
        requires room { LARGEST_DATAGRAM ≤ length area.old }
        ensures fits { FitsRequest self.new request.now }
        ensures setup { self.new.setup ≡ self.old.setup }
        ensures room { length area.new ≡ length area.old }
        ensures trailing { KeepsAfter result area.old area.new }
        ensures answers { is_some result ≡ (is_opened self.old.state
            && has_more_to_send (abstract_client (record self.old { state = ClientState.Closing }) request.now [])) }
        ensures step { (received : List ℕ) → Did (client_closes (abstract_client self.old request.now received))
            (abstract_client self.new request.now received) result area.new }
    {
        match self.state {
            ClientState::Opened => {
                self.state = ClientState::Closing;
                self.send_next(request, false, area)
            }
            ClientState::Idle
            | ClientState::Opening
            | ClientState::Closing
            | ClientState::Closed
            | ClientState::Ended
            | ClientState::Reset => None,
        }
    }

    /// Aborts its connection with a RST. Returns a length if it sends something.
    #[tactic(auto, unfolding(crate::specs::Client::aborts_by))]
    pub fn abort_now(&mut self, area: &mut [u8]) -> Option<usize>
        requires room { LARGEST_DATAGRAM ≤ length area.old }
        ensures fits { (request : List ℕ) → FitsRequest self.old request → FitsRequest self.new request }
        ensures setup { self.new.setup ≡ self.old.setup }
        ensures room { length area.new ≡ length area.old }
        ensures trailing { KeepsAfter result area.old area.new }
        ensures answers { is_some result ≡ can_abort self.old.state }
        ensures step { (request received : List ℕ) → Did (client_aborts (abstract_client self.old request received))
            (abstract_client self.new request received) result area.new }
    {
        match self.state {
            ClientState::Opening | ClientState::Opened | ClientState::Closing => {
                self.state = ClientState::Reset;
                Some(self.send_reset(area))
            }
            ClientState::Idle | ClientState::Closed | ClientState::Ended | ClientState::Reset =>
                None,
        }
    }

    /// Advertises this window from now on, in bytes.
    pub fn set_window(&mut self, window: u16)
        ensures fits { (request : List ℕ) → FitsRequest self.old request → FitsRequest self.new request }
        ensures setup { self.new.setup ≡ self.old.setup }
        ensures step { (request received : List ℕ) → (advertises_window window (abstract_client self.old request received)).client
            ≡ abstract_client self.new request received }
    {
        self.window = window;
    }
}
