//! Queries and their replies, over UDP (RFC 1035, section 4.2.1).

ghost use Rattle.std.specs.Prelude.{◌≡◌};
ghost use Rattle.dns_message.specs.Replies.{answer_to, query_datagram, way_back, way_there};

use crate::answer::Answer;
use crate::message::{answer_by_message, query_message};
use crate::name::Name;
use arrayvec::ArrayVec;
use udp_datagram::{UdpFlow, udp_data, udp_datagram};
use uip_wire::{Addr, LARGEST_DATAGRAM, Port};

/// The port from which queries are sent.
pub const ASKING_PORT: u16 = 4096;

/// The port of a server (RFC 1035, section 4.2.1).
pub const SERVER_PORT: u16 = 53;

/// The querying host, the server, and the id of the query.
#[derive(Clone, Copy, Debug, PartialEq, Eq)]
pub struct Asking {
    pub own: Addr,
    pub server: Addr,
    pub id: u16,
}

impl Asking {
    /// Returns the datagram that queries a name, with an identification of its IP header.
    #[tactic(auto, unfolding(crate::specs::Replies::query_datagram))]
    pub fn query(self, name: &Name, ident: u16) -> ArrayVec<u8, LARGEST_DATAGRAM>
        ensures { result.items ≡ query_datagram self name.now ident }
    {
        udp_datagram(self.way_there(), ident, &query_message(self.id, name))
    }

    /// Returns the answer of a datagram to the question for a name, if it is a matching reply with an answer. Any other datagram is to be
    /// ignored.
    #[tactic(auto, unfolding(crate::specs::Replies::answer_to))]
    pub fn answer(self, name: &Name, datagram: &[u8]) -> Option<Answer>
        ensures { result ≡ answer_to self name.now datagram.now }
    {
        let message = udp_data(self.way_back(), datagram)?;
        answer_by_message(self.id, name, message)
    }

    fn way_there(self) -> UdpFlow
        ensures { result ≡ way_there self }
    {
        UdpFlow {
            source: self.own,
            target: self.server,
            from: Port(ASKING_PORT),
            to: Port(SERVER_PORT),
        }
    }

    fn way_back(self) -> UdpFlow
        ensures { result ≡ way_back self }
    {
        UdpFlow {
            source: self.server,
            target: self.own,
            from: Port(SERVER_PORT),
            to: Port(ASKING_PORT),
        }
    }
}
