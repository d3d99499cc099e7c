//! A run of the resolver, turn by turn.

ghost use Rattle.std.specs.Prelude.{◌≡◌, ◌≤◌, ◌<◌, ◌∷◌, [], List, None, length, map, not, replicate, OnOk};
ghost use Rattle.rexmit_timer.specs.declared.timer.TheConstants.{TEXT_LIMIT};
ghost use Rattle.uip_edge.specs.Prelude.{HasCause, TurnFits, line_view, sink_view};
ghost use Rattle.uip_edge.specs.declared.item.Item.{Item};
ghost use Rattle.uip_edge.specs.declared.item.Item.TheVariants.{Byte, Quiet};
ghost use Rattle.uip_slip.specs.Prelude.{WasFed};
ghost use Rattle.udp_resolver.specs.Asked.{line_text};
ghost use Rattle.udp_resolver.specs.Fates.{all_settled, questions};
ghost use Rattle.udp_resolver.specs.LineEvents.{events};
ghost use Rattle.udp_resolver.specs.Representing.{Asks, RunRepresents, Learns, TurnsAfter, WritesNext, WritesSome};
ghost use Rattle.udp_resolver.specs.Steps.{IsClockAt};

use crate::MOST_NAMES;
use crate::answers::{any_open, receive};
use crate::clock::Clock;
use crate::sender::Sender;
use arrayvec::ArrayVec;
use dns_message::{Answer, Asking, Name};
use packet_buffer::Packet;
use uip_edge::{Failed, Got, Link, ServeEnd, Sink, Turn};
use uip_slip::{Decoder, Fed};
use uip_wire::LARGEST_DATAGRAM;

/// A run of the resolver: its decoder, its clock and the answers so far.
#[derive(Drop)]
pub(crate) struct Run {
    decoder: Decoder,
    pub clock: Clock,
    pub sender: Sender,
    pub answers: ArrayVec<Option<Answer>, MOST_NAMES>,
}

impl Run {
    /// Returns a run for `count` names, before the first query.
    pub fn new(count: usize) -> Run
        requires { count ≤ MOST_NAMES }
        ensures fed { WasFed [] result.decoder }
        ensures at { IsClockAt [] result.clock }
        ensures tries { result.clock.timer.tries ≤ TEXT_LIMIT }
        ensures answers { result.answers.items ≡ replicate count None }
        ensures ident { result.sender.ident ≡ 0 }
    {
        Run {
            decoder: Decoder::new(),
            clock: Clock::new(),
            sender: Sender::new(),
            answers: no_answers(count),
        }
    }

    /// Sends all queries, in order.
    pub fn send_first<K: Sink>(
        &mut self,
        packet: &mut Packet,
        asking: Asking,
        names: &[Name],
        out: &mut K,
    ) -> Result<(), Failed>
        requires fed { WasFed [] self.old.decoder }
        requires at { IsClockAt [] self.old.clock }
        requires tries { self.old.clock.timer.tries ≤ TEXT_LIMIT }
        requires answers { self.old.answers.items ≡ replicate (length names.now) None }
        requires ident { self.old.sender.ident ≡ 0 }
        requires area { length packet.old.area ≡ LARGEST_DATAGRAM }
        ensures tries { self.new.clock.timer.tries ≤ TEXT_LIMIT }
        ensures area { length packet.new.area ≡ LARGEST_DATAGRAM }
        ensures each { length self.new.answers.items ≡ length names.now }
        ensures knows { OnOk result (RunRepresents (questions asking names.now) [] self.new) }
        ensures writes { WritesSome (sink_view K.Sink out.old) (sink_view K.Sink out.new) result
            (line_text (questions asking names.now) []) }
    {
        self.sender
            .send_open(packet, asking, names, self.answers.as_slice(), out)
    }

    /// Returns whether a question is open.
    pub fn is_open(&self, asking: Asking, names: &[Name]) -> bool
        ensures { (items : List Item) → RunRepresents (questions asking names.now) items self.now
            → result ≡ not (all_settled (questions asking names.now) (events items)) }
    {
        !self.clock.given_up && any_open(self.answers.as_slice())
    }

    /// Feeds a byte.
    fn take_byte(&mut self, asking: Asking, names: &[Name], byte: u8)
        requires { length self.old.answers.items ≡ length names.now }
        ensures each { length self.new.answers.items ≡ length names.now }
        ensures clock { self.new.clock ≡ self.old.clock }
        ensures knows { Learns (questions asking names.now) (Byte byte ∷ []) self.old self.new }
    {
        if let Fed::Datagram(count) = self.decoder.feed(byte) {
            receive(
                self.answers.as_mut_slice(),
                asking,
                names,
                self.decoder.bytes(count),
            );
        }
    }

    /// Feeds bytes.
    fn take(&mut self, asking: Asking, names: &[Name], bytes: &[u8])
        requires { length self.old.answers.items ≡ length names.now }
        ensures each { length self.new.answers.items ≡ length names.now }
        ensures clock { self.new.clock ≡ self.old.clock }
        ensures knows { Learns (questions asking names.now) (map Byte bytes.now) self.old self.new }
    {
        for byte in bytes {
            self.take_byte(asking, names, *byte);
        }
    }

    /// Counts a silence: at some of them the open questions are sent again.
    fn tick<K: Sink>(
        &mut self,
        packet: &mut Packet,
        asking: Asking,
        names: &[Name],
        out: &mut K,
    ) -> Result<(), Failed>
        requires tries { self.old.clock.timer.tries ≤ TEXT_LIMIT }
        requires area { length packet.old.area ≡ LARGEST_DATAGRAM }
        requires each { length self.old.answers.items ≡ length names.now }
        ensures tries { self.new.clock.timer.tries ≤ TEXT_LIMIT }
        ensures area { length packet.new.area ≡ LARGEST_DATAGRAM }
        ensures each { length self.new.answers.items ≡ length names.now }
        ensures knows { OnOk result (Learns (questions asking names.now) (Quiet ∷ []) self.old self.new) }
        ensures writes { WritesNext (questions asking names.now) self.old (sink_view K.Sink out.old) (sink_view K.Sink out.new) result }
        ensures cause { HasCause (K.faults out.old) (K.faults out.new) result }
    {
        if !self.clock.tick() {
            return Ok(());
        }
        self.sender
            .send_open(packet, asking, names, self.answers.as_slice(), out)
    }

    /// Takes one turn: what the link returns next.
    pub fn turn<L: Link, K: Sink>(
        &mut self,
        packet: &mut Packet,
        asking: Asking,
        names: &[Name],
        buf: &mut [u8],
        link: &mut L,
        out: &mut K,
    ) -> Turn<ServeEnd>
        requires room { 0 < length buf.old }
        requires tries { self.old.clock.timer.tries ≤ TEXT_LIMIT }
        requires area { length packet.old.area ≡ LARGEST_DATAGRAM }
        requires each { length self.old.answers.items ≡ length names.now }
        ensures tries { self.new.clock.timer.tries ≤ TEXT_LIMIT }
        ensures area { length packet.new.area ≡ LARGEST_DATAGRAM }
        ensures each { length self.new.answers.items ≡ length names.now }
        ensures fits { TurnFits result (length buf.old) }
        ensures turns { TurnsAfter (questions asking names.now) self.old self.new
            (line_view L.Link K.Sink link.old out.old)
            (line_view L.Link K.Sink link.new out.new) (length buf.old) result }
    {
        match link.next(buf) {
            Err(Failed) => Turn::Ended(ServeEnd::LinkFault),
            Ok(Got::End) => Turn::Ended(ServeEnd::End),
            Ok(Got::Quiet) => match self.tick(packet, asking, names, out) {
                Ok(()) => Turn::Took(1),
                Err(Failed) => Turn::Ended(ServeEnd::WriteFault),
            },
            Ok(Got::Bytes(count)) => {
                self.take(asking, names, &buf[..count]);
                Turn::Took(count as u64)
            }
        }
    }
}

/// The most bytes that are read from a link at once.
const BLOCK: usize = 4096;

/// Resolves the names in a run that has not begun, until all questions are settled, the link ends or `items` items were taken.
pub(crate) fn ask<L: Link, K: Sink>(
    run: &mut Run,
    packet: &mut Packet,
    asking: Asking,
    names: &[Name],
    link: &mut L,
    out: &mut K,
    items: u64,
) -> ServeEnd
    requires fed { WasFed [] run.old.decoder }
    requires at { IsClockAt [] run.old.clock }
    requires tries { run.old.clock.timer.tries ≤ TEXT_LIMIT }
    requires answers { run.old.answers.items ≡ replicate (length names.now) None }
    requires ident { run.old.sender.ident ≡ 0 }
    requires area { length packet.old.area ≡ LARGEST_DATAGRAM }
    ensures area { length packet.new.area ≡ LARGEST_DATAGRAM }
    ensures each { length run.new.answers.items ≡ length names.now }
    ensures asks { Asks (questions asking names.now) items run.new
        (line_view L.Link K.Sink link.old out.old)
        (line_view L.Link K.Sink link.new out.new) result }
{
    if run.send_first(packet, asking, names, out).is_err() {
        return ServeEnd::WriteFault;
    }
    let mut buf = [0; BLOCK];
    let mut left = items;
    while run.is_open(asking, names) {
        if left == 0 {
            return ServeEnd::Budget;
        }
        let room = left.min(BLOCK as u64) as usize;
        match run.turn(packet, asking, names, &mut buf[..room], link, out) {
            Turn::Took(count) => left -= count,
            Turn::Ended(end) => return end,
        }
    }
    ServeEnd::End
}

/// Returns no answer for each of `count` names.
fn no_answers(count: usize) -> ArrayVec<Option<Answer>, MOST_NAMES>
    requires { count ≤ MOST_NAMES }
    ensures { result.items ≡ replicate count None }
{
    let mut answers: ArrayVec<Option<Answer>, MOST_NAMES> = ArrayVec::new();
    for _name in 0..count {
        answers.push(None);
    }
    answers
}
