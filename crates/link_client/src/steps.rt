//! The steps of a client on a segment of its server (RFC 793, section 3.9).

ghost use Rattle.std.specs.Prelude.{◌≡◌, ◌+◌, ◌≤◌, ◌==◌, ◌&&◌, ◌||◌, ◌++◌, is_some, false, not};
ghost use Rattle.std.specs.Prelude.{nat_lt, ℕ, [], List, true, if◌then◌else◌, slice_range, length};
ghost use Rattle.tcp_segment.specs.Prelude.{plain_of};
ghost use Rattle.tcp_machine.specs.Prelude.{occupies_sequence_space, plain};
ghost use Rattle.link_client.specs.Calls.{Did, DidAtText, FitsRequest, KeepsAfter, has_more_to_send, received_with, abstract_client};
ghost use Rattle.link_client.specs.Client.{after_fin, client_takes, fin_out, fin_sent, receives_ack, is_receiving, is_reset_by, reset_by};
ghost use Rattle.link_client.specs.Client.{may_finish, sends_next, takes_by, takes_in_order, takes_text, has_outstanding};

use crate::client::Client;
use crate::client_state::ClientState;
use crate::fin_at::FinAt;
use crate::took::Took;
use tcp_segment::Segment;
use uip_wire::LARGEST_DATAGRAM;

/// What a client did with a segment.
#[derive(Clone, Copy, Debug, PartialEq, Eq)]
pub(crate) struct Received {
    /// The length of the datagram that it sends.
    pub sent: Option<usize>,
    /// The segment's text was accepted.
    pub took_text: bool,
}

/// Returns that the text was not accepted.
fn without_text(sent: Option<usize>) -> Received
    ensures { result ≡ record { sent = sent; took_text = false } }
{
    Received {
        sent,
        took_text: false,
    }
}

/// What a client did with the text of a segment.
#[derive(Clone, Copy, Debug, PartialEq, Eq)]
struct Accepted {
    /// The segment is answered at least by an ACK.
    owed: bool,
    /// The text was accepted.
    took_text: bool,
}

/// Returns what was sent, and the range of the text in its datagram if it was accepted.
pub(crate) fn took(segment: &Segment, delivered: Received) -> Took
    ensures sent { result.sent ≡ delivered.sent }
    ensures inside { result.fresh_at + result.fresh_len ≤ segment.now.text_at + segment.now.text_len }
    ensures none { result.fresh_len ≡ 0 → result.fresh_at ≡ 0 }
    ensures fresh { (received bytes : List ℕ) → received ++ slice_range bytes result.fresh_at (result.fresh_at + result.fresh_len)
        ≡ received_with delivered.took_text received (plain_of segment.now bytes).text }
{
    if delivered.took_text && segment.text_len > 0 {
        return Took {
            sent: delivered.sent,
            fresh_at: segment.text_at,
            fresh_len: segment.text_len,
        };
    }
    Took {
        sent: delivered.sent,
        fresh_at: 0,
        fresh_len: 0,
    }
}

/// Returns the FIN's progress after its acknowledgement: a FIN that was sent is now acknowledged.
fn fin_received(fin: FinAt) -> FinAt
    ensures { result ≡ (if fin_out fin then FinAt.Acked else fin) }
{
    match fin {
        FinAt::NotSent => FinAt::NotSent,
        FinAt::Out | FinAt::Acked => FinAt::Acked,
    }
}

/// Returns the state after the server's FIN.
fn after_fin(state: ClientState) -> ClientState
    ensures { result ≡ after_fin state }
{
    match state {
        ClientState::Opened => ClientState::Closed,
        ClientState::Closing => ClientState::Ended,
        _ => state,
    }
}

/// Returns whether the segment occupies sequence space: text, a SYN or a FIN.
fn occupies_sequence_space(segment: &Segment, piece: &[u8]) -> bool
    ensures { result ≡ occupies_sequence_space (plain segment.now piece.now) }
{
    !piece.is_empty() || segment.has_syn() || segment.has_fin()
}

impl Client {
    /// Returns whether something of its own is outstanding.
    fn waits_for_ack(&self) -> bool
        ensures { result ≡ has_outstanding (abstract_client self.now [] []) }
    {
        self.out > 0 || self.fin == FinAt::Out
    }

    /// Returns whether it accepts text.
    fn is_receiving(&self) -> bool
        ensures { result ≡ is_receiving self.now.state }
    {
        matches!(self.state, ClientState::Opened | ClientState::Closing)
    }

    /// Returns whether bytes of its request may be sent.
    fn has_text_to_send(&self, len: usize) -> bool
        ensures { result ≡ (not (has_outstanding (abstract_client self.now [] [])) &&
            (is_receiving self.now.state && nat_lt self.now.acked len)) }
    {
        !self.waits_for_ack() && self.is_receiving() && (self.acked as usize) < len
    }

    /// Returns whether it has nothing more to request.
    fn may_finish(&self) -> bool
        ensures { result ≡ may_finish self.now.state }
    {
        matches!(
            self.state,
            ClientState::Closing | ClientState::Closed | ClientState::Ended
        )
    }

    /// Returns whether its FIN may be sent.
    fn has_fin_to_send(&self) -> bool
        ensures { result ≡ (not (has_outstanding (abstract_client self.now [] [])) &&
            (may_finish self.now.state && not (fin_sent self.now.fin))) }
    {
        !self.waits_for_ack() && self.may_finish() && self.fin == FinAt::NotSent
    }

    /// Sends what is next: request bytes, its FIN, or a bare ACK if one is owed.
    #[tactic(auto, unfolding(crate::specs::Client::sends_next))]
    pub(crate) fn send_next(&mut self, request: &[u8], owed: bool, area: &mut [u8]) -> Option<usize>
        requires fits { FitsRequest self.old request.now }
        requires room { LARGEST_DATAGRAM ≤ length area.old }
        ensures fits { FitsRequest self.new request.now }
        ensures setup { self.new.setup ≡ self.old.setup }
        ensures trailing { KeepsAfter result area.old area.new }
        ensures answers { is_some result ≡ (has_more_to_send (abstract_client self.old request.now []) || owed) }
        ensures step { (received : List ℕ) → Did (sends_next owed (abstract_client self.old request.now received))
            (abstract_client self.new request.now received) result area.new }
    {
        if self.has_text_to_send(request.len()) {
            let left = request.len() - self.acked as usize;
            self.out = usize::from(self.setup.seg).min(left) as u16;
            return Some(self.send_request(request, area));
        }
        if self.has_fin_to_send() {
            self.fin = FinAt::Out;
            return Some(self.send_fin(area));
        }
        if owed {
            return Some(self.send_ack(area));
        }
        None
    }

    /// Records that what is outstanding is acknowledged, if the number is its next own one.
    fn receive_ack(&mut self, segment: &Segment)
        requires fits { self.old.acked + self.old.out ≤ 4096 }
        ensures setup { self.new.setup ≡ self.old.setup }
        ensures state { self.new.state ≡ self.old.state }
        ensures fits { (request : List ℕ) → FitsRequest self.old request → FitsRequest self.new request }
        ensures delivered { (request received text : List ℕ)
            → receives_ack (abstract_client self.old request received) (plain segment.now text)
            ≡ abstract_client self.new request received }
    {
        if segment.has_ack() && self.waits_for_ack() && segment.ack.0 == self.next_own().0 {
            self.acked += u32::from(self.out);
            self.out = 0;
            self.fin = fin_received(self.fin);
        }
    }

    /// Accepts the text of a segment at RCV.NXT, and then its FIN.
    fn take_text(&mut self, segment: &Segment, piece: &[u8])
        requires short { length piece.now ≤ LARGEST_DATAGRAM }
        ensures setup { self.new.setup ≡ self.old.setup }
        ensures fits { (request : List ℕ) → FitsRequest self.old request → FitsRequest self.new request }
        ensures taken { (request received : List ℕ) → takes_text (abstract_client self.old request received) (plain segment.now piece.now)
            ≡ abstract_client self.new request (received_with true received piece.now) }
    {
        let count = piece.len() as u32;
        if segment.has_fin() {
            self.rcv = self.rcv.add(count + 1);
            self.state = after_fin(self.state);
            return;
        }
        self.rcv = self.rcv.add(count);
    }

    /// Returns whether the segment is at RCV.NXT and its text is accepted.
    fn is_next(&self, segment: &Segment) -> bool
        ensures { result ≡ ((segment.now.seq.0 == self.now.rcv.0) && is_receiving self.now.state) }
    {
        segment.seq.0 == self.rcv.0 && self.is_receiving()
    }

    /// Accepts the text of a segment if it is in order.
    #[tactic(auto, unfolding(crate::specs::Client::takes_in_order))]
    fn accept(&mut self, segment: &Segment, piece: &[u8]) -> Accepted
        requires short { length piece.now ≤ LARGEST_DATAGRAM }
        ensures setup { self.new.setup ≡ self.old.setup }
        ensures fits { (request : List ℕ) → FitsRequest self.old request → FitsRequest self.new request }
        ensures step { (request received : List ℕ) → takes_in_order (abstract_client self.old request received)
            (plain segment.now piece.now)
            ≡ sends_next result.owed (abstract_client self.new request (received_with result.took_text received piece.now)) }
    {
        let mut accepted = Accepted {
            owed: true,
            took_text: false,
        };
        if segment.has_syn() {
            return accepted;
        }
        if !occupies_sequence_space(segment, piece) {
            accepted.owed = false;
            return accepted;
        }
        if self.is_next(segment) {
            self.take_text(segment, piece);
            accepted.took_text = true;
        }
        accepted
    }

    /// Handles a segment that arrives before the SYN is answered.
    #[tactic(auto, unfolding(crate::specs::Client::takes_by))]
    fn take_opening(&mut self, request: &[u8], segment: &Segment, area: &mut [u8]) -> Option<usize>
        requires fits { FitsRequest self.old request.now }
        requires room { LARGEST_DATAGRAM ≤ length area.old }
        ensures fits { FitsRequest self.new request.now }
        ensures setup { self.new.setup ≡ self.old.setup }
        ensures trailing { KeepsAfter result area.old area.new }
        ensures step { (received text : List ℕ) → Did (takes_by ClientState.Opening (abstract_client self.old request.now received)
            (plain segment.now text)) (abstract_client self.new request.now received) result area.new }
    {
        if segment.has_syn() && segment.has_ack() && segment.ack.0 == self.setup.iss.add(1).0 {
            self.state = ClientState::Opened;
            self.rcv = segment.seq.add(1);
            return self.send_next(request, true, area);
        }
        None
    }

    /// Returns whether a RST is valid: as the answer to the SYN, and later at RCV.NXT.
    fn is_reset_by(&self, segment: &Segment) -> bool
        ensures { (request received text : List ℕ) → is_reset_by self.now.state (abstract_client self.now request received)
            (plain segment.now text) ≡ result }
    {
        match self.state {
            ClientState::Opening => {
                segment.has_ack() && segment.ack.0 == self.setup.iss.add(1).0
            }
            ClientState::Opened | ClientState::Closing => segment.seq.0 == self.rcv.0,
            _ => false,
        }
    }

    /// Handles a RST.
    fn take_reset(&mut self, segment: &Segment)
        ensures setup { self.new.setup ≡ self.old.setup }
        ensures fits { (request : List ℕ) → FitsRequest self.old request → FitsRequest self.new request }
        ensures reset { (request received text : List ℕ) → reset_by (abstract_client self.old request received)
            (plain segment.now text) ≡ abstract_client self.new request received }
    {
        if self.is_reset_by(segment) {
            self.state = ClientState::Reset;
        }
    }

    /// Handles a segment of its server; `piece` is the segment's text.
    #[tactic(auto, unfolding(crate::specs::Client::client_takes, crate::specs::Client::takes_by))]
    pub(crate) fn take_segment(
        &mut self,
        request: &[u8],
        segment: &Segment,
        piece: &[u8],
        area: &mut [u8],
    ) -> Received
        requires fits { FitsRequest self.old request.now }
        requires short { length piece.now ≤ LARGEST_DATAGRAM }
        requires room { LARGEST_DATAGRAM ≤ length area.old }
        ensures fits { FitsRequest self.new request.now }
        ensures setup { self.new.setup ≡ self.old.setup }
        ensures trailing { KeepsAfter result.sent area.old area.new }
        ensures step { DidAtText (λ c. client_takes c (plain segment.now piece.now)) request.now piece.now result.took_text
            self.old self.new result.sent area.new }
    {
        if segment.has_rst() {
            self.take_reset(segment);
            return without_text(None);
        }
        match self.state {
            ClientState::Idle | ClientState::Reset => without_text(None),
            ClientState::Opening => without_text(self.take_opening(request, segment, area)),
            ClientState::Opened | ClientState::Closing | ClientState::Closed | ClientState::Ended =>
                {
                    self.receive_ack(segment);
                    let accepted = self.accept(segment, piece);
                    Received {
                        sent: self.send_next(request, accepted.owed, area),
                        took_text: accepted.took_text,
                    }
                }
        }
    }
}
