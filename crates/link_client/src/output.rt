//! The segments that a client sends, written into an area.

ghost use Rattle.std.specs.Prelude.{◌≡◌, ◌+◌, ◌≤◌, [], IsSome, Some, drop, length, slice_range};
ghost use Rattle.uip_wire.specs.Prelude.{wrap};
ghost use Rattle.link_client.specs.Calls.{FitsRequest, KeepsAfter, Sends, abstract_client};
ghost use Rattle.link_client.specs.Client.{ack_of, again_by, own_fin, next_own, offered, own_request, own_reset, syn_of};

use crate::client::Client;
use crate::client_state::ClientState;
use crate::fin_at::FinAt;
use tcp_segment::{ACK, FIN, Out, PSH, RST, SYN, put_in};
use uip_wire::{LARGEST_DATAGRAM, OWN_MSS, Seq};

/// The part of a segment's header that is not in its client.
#[derive(Clone, Copy, Debug, PartialEq, Eq)]
struct Heading {
    seq: Seq,
    ack: Seq,
    flags: u8,
    mss: Option<u16>,
}

/// Copies the text of a segment to its offset.
fn put_text(area: &mut [u8], text: &[u8])
    requires { 40 + length text.now ≤ length area.old }
    ensures text { slice_range area.new 40 (40 + length text.now) ≡ text.now }
    ensures trailing { drop (40 + length text.now) area.new ≡ drop (40 + length text.now) area.old }
{
    area[40..40 + text.len()].copy_from_slice(text);
}

/// Returns the option of a SYN for this value.
fn offered(mss: u16) -> Option<u16>
    ensures { result ≡ offered mss }
{
    if mss == 0 { None } else { Some(mss) }
}

impl Client {
    /// Writes a segment around its text, and returns the length of its datagram in bytes.
    fn send(&self, heading: Heading, text: &[u8], area: &mut [u8]) -> usize
        requires room { LARGEST_DATAGRAM ≤ length area.old }
        requires fits { length text.now ≤ OWN_MSS }
        requires no_text { IsSome heading.mss → length text.now ≡ 0 }
        ensures sent { Sends self.now.setup
            (Some (record {
              seq = heading.seq.0;
              ack = heading.ack.0;
              flags = heading.flags;
              window = self.now.window;
              mss = heading.mss;
              text = text.now;
            })) (Some result) area.new }
        ensures trailing { KeepsAfter (Some result) area.old area.new }
    {
        put_text(area, text);
        let out = Out {
            source: self.setup.addr,
            target: self.setup.server,
            from: self.setup.port,
            to: self.setup.server_port,
            seq: heading.seq,
            ack: heading.ack,
            flags: heading.flags,
            window: self.window,
            mss: heading.mss,
            len: text.len(),
            id: 0,
        };
        put_in(area, &out)
    }

    /// Writes a segment without text that acknowledges what the client accepted.
    fn send_bare(&self, seq: Seq, flags: u8, area: &mut [u8]) -> usize
        requires room { LARGEST_DATAGRAM ≤ length area.old }
        ensures sent { Sends self.now.setup
            (Some (record { seq = seq.0; ack = self.now.rcv.0; flags = flags; window = self.now.window; mss = None; text = [] }))
            (Some result) area.new }
        ensures trailing { KeepsAfter (Some result) area.old area.new }
    {
        let heading = Heading {
            seq,
            ack: self.rcv,
            flags,
            mss: None,
        };
        self.send(heading, &[], area)
    }

    /// Returns the number of the first byte of its request that is not acknowledged.
    fn first_unacked(&self) -> Seq
        ensures { result.0 ≡ wrap (self.now.setup.iss.0 + 1 + self.now.acked) }
    {
        self.setup.iss.add(1).add(self.acked)
    }

    /// Returns the number after the bytes of its request that it sent.
    fn after_text(&self) -> Seq
        ensures { result.0 ≡ wrap (self.now.setup.iss.0 + 1 + self.now.acked + self.now.out) }
    {
        self.first_unacked().add(u32::from(self.out))
    }

    /// Returns the number after all that it sent.
    pub(crate) fn next_own(&self) -> Seq
        ensures { result.0 ≡ next_own (abstract_client self.now [] []) }
    {
        match self.fin {
            FinAt::NotSent => self.after_text(),
            FinAt::Out | FinAt::Acked => self.after_text().add(1),
        }
    }

    /// Sends its SYN.
    pub(crate) fn send_syn(&self, area: &mut [u8]) -> usize
        requires room { LARGEST_DATAGRAM ≤ length area.old }
        ensures sent { Sends self.now.setup (Some (syn_of (abstract_client self.now [] []))) (Some result) area.new }
        ensures trailing { KeepsAfter (Some result) area.old area.new }
    {
        let heading = Heading {
            seq: self.setup.iss,
            ack: Seq(0),
            flags: SYN,
            mss: offered(self.setup.mss),
        };
        self.send(heading, &[], area)
    }

    /// Sends an acknowledgement without text.
    pub(crate) fn send_ack(&self, area: &mut [u8]) -> usize
        requires room { LARGEST_DATAGRAM ≤ length area.old }
        ensures sent { Sends self.now.setup (Some (ack_of (abstract_client self.now [] []))) (Some result) area.new }
        ensures trailing { KeepsAfter (Some result) area.old area.new }
    {
        self.send_bare(self.next_own(), ACK, area)
    }

    /// Sends the bytes of its request that are outstanding.
    pub(crate) fn send_request(&self, request: &[u8], area: &mut [u8]) -> usize
        requires fits { FitsRequest self.now request.now }
        requires room { LARGEST_DATAGRAM ≤ length area.old }
        ensures sent { Sends self.now.setup (Some (own_request (abstract_client self.now request.now []))) (Some result) area.new }
        ensures trailing { KeepsAfter (Some result) area.old area.new }
    {
        let heading = Heading {
            seq: self.first_unacked(),
            ack: self.rcv,
            flags: ACK + PSH,
            mss: None,
        };
        let start = self.acked as usize;
        self.send(
            heading,
            &request[start..start + usize::from(self.out)],
            area,
        )
    }

    /// Sends what it retransmits once it is open: what is outstanding, or an acknowledgement.
    #[tactic(auto, unfolding(crate::specs::Client::again_by))]
    pub(crate) fn send_again(&self, request: &[u8], area: &mut [u8]) -> usize
        requires fits { FitsRequest self.now request.now }
        requires room { LARGEST_DATAGRAM ≤ length area.old }
        ensures sent { Sends self.now.setup (again_by ClientState.Opened (abstract_client self.now request.now [])).sent
            (Some result) area.new }
        ensures trailing { KeepsAfter (Some result) area.old area.new }
    {
        if self.out > 0 {
            return self.send_request(request, area);
        }
        if self.fin == FinAt::Out {
            return self.send_fin(area);
        }
        self.send_ack(area)
    }

    /// Sends its FIN.
    pub(crate) fn send_fin(&self, area: &mut [u8]) -> usize
        requires room { LARGEST_DATAGRAM ≤ length area.old }
        ensures sent { Sends self.now.setup (Some (own_fin (abstract_client self.now [] []))) (Some result) area.new }
        ensures trailing { KeepsAfter (Some result) area.old area.new }
    {
        self.send_bare(self.after_text(), FIN + ACK, area)
    }

    /// Sends the RST that aborts its connection.
    pub(crate) fn send_reset(&self, area: &mut [u8]) -> usize
        requires room { LARGEST_DATAGRAM ≤ length area.old }
        ensures sent { Sends self.now.setup (Some (own_reset (abstract_client self.now [] []))) (Some result) area.new }
        ensures trailing { KeepsAfter (Some result) area.old area.new }
    {
        self.send_bare(self.next_own(), RST + ACK, area)
    }
}
