ghost use Rattle.std.specs.Prelude.{◌≡◌, length, OnOk};
ghost use Rattle.uip_edge.specs.Prelude.{sink_view, Writes};
ghost use Rattle.uip_slip.specs.Prelude.{slip_text};
ghost use Rattle.dns_message.specs.Replies.{query_datagram};
ghost use Rattle.udp_resolver.specs.Asked.{last_ident, next_ident, query_texts};
ghost use Rattle.udp_resolver.specs.Fates.{questions};
ghost use Rattle.udp_resolver.specs.Representing.{WritesSome};
ghost use Rattle.udp_resolver.specs.Steps.{unanswered, unless_answered};

use crate::answers::next_asking;
use dns_message::{Answer, Asking, Name};
use packet_buffer::Packet;
use uip_edge::{Failed, Sink};
use uip_slip::Encoder;
use uip_wire::LARGEST_DATAGRAM;

/// Sends queries, each with the next identification of the IP header.
#[derive(Drop)]
pub(crate) struct Sender {
    encoder: Encoder,
    pub ident: u16,
}

impl Sender {
    /// Returns a sender that has sent nothing.
    pub fn new() -> Sender
        ensures { result.ident ≡ 0 }
    {
        Sender {
            encoder: Encoder::new(),
            ident: 0,
        }
    }

    /// Sends the query for a name.
    fn send<K: Sink>(
        &mut self,
        packet: &mut Packet,
        asking: Asking,
        name: &Name,
        out: &mut K,
    ) -> Result<(), Failed>
        requires { length packet.old.area ≡ LARGEST_DATAGRAM }
        ensures area { length packet.new.area ≡ LARGEST_DATAGRAM }
        ensures ident { self.new.ident ≡ next_ident self.old.ident }
        ensures writes { Writes (sink_view K.Sink out.old) (sink_view K.Sink out.new) result
            (slip_text (query_datagram asking name.now self.new.ident)) }
    {
        self.ident = self.ident.wrapping_add(1);
        packet.load(&asking.query(name, self.ident));
        self.encoder.encode(packet.bytes(), out)
    }

    /// Sends the query for a name, unless it has an answer.
    fn send_unless<K: Sink>(
        &mut self,
        packet: &mut Packet,
        asking: Asking,
        name: &Name,
        answer: Option<Answer>,
        out: &mut K,
    ) -> Result<(), Failed>
        requires { length packet.old.area ≡ LARGEST_DATAGRAM }
        ensures area { length packet.new.area ≡ LARGEST_DATAGRAM }
        ensures ident { self.new.ident
            ≡ last_ident self.old.ident (unless_answered (record { asking = asking; text = name.now }) answer) }
        ensures writes { WritesSome (sink_view K.Sink out.old) (sink_view K.Sink out.new) result
            (query_texts self.old.ident (unless_answered (record { asking = asking; text = name.now }) answer)) }
    {
        if answer.is_some() {
            return Ok(());
        }
        self.send(packet, asking, name, out)
    }

    /// Sends the queries for the names that have no answer, in order.
    pub fn send_open<K: Sink>(
        &mut self,
        packet: &mut Packet,
        asking: Asking,
        names: &[Name],
        answers: &[Option<Answer>],
        out: &mut K,
    ) -> Result<(), Failed>
        requires area { length packet.old.area ≡ LARGEST_DATAGRAM }
        requires each { length answers.now ≡ length names.now }
        ensures area { length packet.new.area ≡ LARGEST_DATAGRAM }
        ensures ident { OnOk result (self.new.ident
            ≡ last_ident self.old.ident (unanswered (questions asking names.now) answers.now)) }
        ensures writes { WritesSome (sink_view K.Sink out.old) (sink_view K.Sink out.new) result
            (query_texts self.old.ident (unanswered (questions asking names.now) answers.now)) }
    {
        let mut asking = asking;
        for at in 0..names.len() {
            self.send_unless(packet, asking, &names[at], answers[at], out)?;
            asking = next_asking(asking);
        }
        Ok(())
    }
}
