//! The node: dispatches a datagram to its protocol and connection, and sends the reply.

ghost use Rattle.std.specs.Prelude.{◌≡◌, ◌==◌, ◌&&◌};
ghost use Rattle.tcp_machine.specs.Prelude.{is_again};

use crate::event_counts;
use crate::output::put_reset;
use crate::slot_events::{
    ask_app, conn_in, count_slots, is_live_in, open_in, rows_in, speak_in, take_segment, take_tick,
};
use app_events::{App, Now};
use icmp_echo::reply;
use packet_buffer::Packet;
use std::alloc::Global;
use std::marker::Model;
use tcp_machine::Step;
use tcp_segment::{SYN, Segment, TcpFate, check as check_segment};
use tcp_table::{Conn, Table};
use uip_edge::NoMemory;
use uip_ipv4::{IpFate, IpHead, Proto, check as check_head};
use uip_wire::{Addr, LARGEST_DATAGRAM};

/// Returns whether a step is a retransmission.
fn is_again(step: Step) -> bool
    ensures { result ≡ is_again step }
{
    match step {
        Step::SynAck { again } | Step::Text { again } | Step::Fin { again } => again,
        Step::Drop | Step::Ack | Step::Reset | Step::Ask { .. } => false,
    }
}

/// Returns whether a segment of no connection may open one: of the six flags it has SYN alone, and its port is served.
fn opens_here<A: App>(seg: &Segment) -> bool
    ensures { result ≡ ((seg.now.flags == SYN) && A.served seg.now.to.0) }
{
    seg.flags == SYN && A::serves(seg.to)
}

/// A node. Apart from its one packet it stores no segment.
/// [add: counter] The length of the array `net`, here and in `new`.
#[derive(Drop)]
pub struct Node<A: App> {
    pub addr: Addr,
    pub packet: Packet,
    pub table: Table<A>,
    /// The twenty counters, in the order of docs/FORMATS.md.
    pub net: [u32; 20],
    pub ticks: u32,
    /// The identification of the last TCP datagram.
    pub ident: u16,
    /// What the applications of the connections share.
    pub shared: A::Shared,
}

impl<A: App> Model for Node<A> {
    ghost use Rattle.uip_node.specs.State.{Node};
    ghost use Rattle.uip_node.specs.Represents.{IsWellFormed};

    ghost Value = { Node A A.Shared };

    ghost view = { λ node. record {
      addr = node.addr;
      packet = node.packet;
      table = node.table;
      counts = record { net = node.net; ticks = node.ticks; ident = node.ident };
      shared = node.shared;
    } };

    ghost invariant = { λ node. IsWellFormed A.App node.packet node.table.conns node.shared };
}

impl<A: App> Node<A> {
    ghost use Rattle.std.specs.Prelude.{◌≡◌, ◌+◌, ◌<◌, ◌≤◌, [], IfOk, None, Some, length, slice_get, take, true};
    ghost use Rattle.app_events.specs.States.{is_live};
    ghost use Rattle.packet_buffer.specs.Buffer.{datagram_in};
    ghost use Rattle.tcp_machine.specs.Connection.{rows_from};
    ghost use Rattle.tcp_machine.specs.Fits.{IsAnswer, StepFits};
    ghost use Rattle.tcp_machine.specs.OnSegment.{on_segment};
    ghost use Rattle.tcp_machine.specs.Represents.{plain};
    ghost use Rattle.tcp_segment.specs.Received.{plain_of, segment_or_fate};
    ghost use Rattle.uip_ipv4.specs.Head.{IsHeadOf};
    ghost use Rattle.uip_node.specs.Counted.{seen};
    ghost use Rattle.uip_node.specs.Counters.{counters, ticks_of};
    ghost use Rattle.uip_node.specs.Edge.{by_proto, by_segment, event_of, sockets_of};
    ghost use Rattle.uip_node.specs.Events.Event.{IpRefused, Overlong, Periodic, TcpRefused};
    ghost use Rattle.uip_node.specs.Node.{AbstractNode, arrives, for_no_connection, initial_node, opens, refuses, slot_for_syn, step};
    ghost use Rattle.uip_node.specs.Inner.{AnswersPeer, OpensBy, SendsStep, StepsIn};
    ghost use Rattle.uip_node.specs.Slots.{IsIn, NoneAt};
    ghost use Rattle.uip_node.specs.Represents.{Refines, Represents};

    /// Returns a node at an address, with ten CLOSED connections and all counters 0. No later call allocates memory (measured). On
    /// `NoMemory` `shared` is dropped.
    pub fn new(alloc: Global, addr: Addr, shared: A::Shared) -> Result<Node<A>, NoMemory>
        ensures represented { IfOk result (λ node. Represents A.App node (initial_node addr (A.numbers shared)) []) }
        ensures shared { IfOk result (λ node. node.shared ≡ shared) }
    {
        let packet = Packet::new(alloc, LARGEST_DATAGRAM)?;
        let table = Table::new(alloc)?;
        count_slots(&table);
        Ok(Node {
            addr,
            packet,
            table,
            net: [0; 20],
            ticks: 0,
            ident: 0,
            shared,
        })
    }

    /// Returns the datagram in the packet.
    pub fn packet(&self) -> &[u8]
        ensures datagram { result.now ≡ datagram_in self.now.packet }
        ensures most { length result.now ≤ LARGEST_DATAGRAM }
    {
        self.packet.bytes()
    }

    /// Returns the node's own address.
    pub fn addr(&self) -> Addr
        ensures { result ≡ self.now.addr }
    {
        self.addr
    }

    /// Returns the number of ticks, modulo 2^32.
    pub fn ticks(&self) -> u32
        ensures { result ≡ self.now.counts.ticks }
    {
        self.ticks
    }

    /// Returns what the applications of the connections share.
    pub fn shared(&self) -> &A::Shared
        ensures { result.now ≡ self.now.shared }
    {
        &self.shared
    }

    /// Returns the connection in a slot below 10.
    pub fn conn(&self, slot: usize) -> &Conn<A>
        requires { slot < 10 }
        ensures { slice_get self.now.table.conns slot ≡ Some result.now }
    {
        conn_in(&self.table, slot)
    }

    /// Returns a snapshot: the ticks, the counters and the rows of the connections that are not CLOSED.
    pub fn now(&self) -> Now
        ensures { (n : AbstractNode) → Represents A.App self.now n n.history
            → result ≡ record { ticks = ticks_of n.history; net = counters n.history; rows = rows_from 0 n.connections } }
    {
        Now {
            ticks: self.ticks,
            net: self.net,
            rows: rows_in(&self.table),
        }
    }

    /// Counts a frame that is longer than a datagram.
    pub fn count_overlong(&mut self)
        ensures rest { self.new ≡ record self.old { counts = self.new.counts } }
        ensures same { A.config self.new.shared ≡ A.config self.old.shared }
        ensures step { (n : AbstractNode) → Represents A.App self.old n n.history
            → Represents A.App self.new (step (A.app_spec (A.config self.old.shared)) A.served n Overlong).node (seen Overlong n.history) }
    {
        event_counts::overlong(&mut self.net);
    }

    /// Sends the segment of a step of the connection in a slot.
    fn send_step(&mut self, slot: usize, step: Step) -> Option<usize>
        requires within { slot < length self.old.table.conns }
        requires answer { IsAnswer step }
        requires fits { IsIn self.old.table.conns slot (λ c. StepFits c step) }
        ensures same { A.config self.new.shared ≡ A.config self.old.shared }
        ensures quiet { result ≡ None → self.new.packet ≡ self.old.packet }
        ensures step { SendsStep A.App slot step self.old self.new result }
    {
        let id = self.ident.wrapping_add(1);
        match speak_in(
            &mut self.packet,
            &self.table,
            &self.shared,
            slot,
            step,
            self.addr,
            id,
        ) {
            Some(len) => {
                event_counts::segment_sent(&mut self.net, is_again(step));
                self.ident = id;
                Some(len)
            }
            None => None,
        }
    }

    /// Delivers a segment to the connection in a slot, which is not CLOSED.
    fn deliver(&mut self, slot: usize, seg: &Segment) -> Option<usize>
        requires within { slot < length self.old.table.conns }
        requires live { IsIn self.old.table.conns slot (λ c. is_live c.state ≡ true) }
        requires inside { seg.now.text_at + seg.now.text_len ≤ length (datagram_in self.old.packet) }
        ensures same { A.config self.new.shared ≡ A.config self.old.shared }
        ensures quiet { result ≡ None → self.new.packet ≡ self.old.packet }
        ensures step { StepsIn A.App slot (λ m c numbers. on_segment m c numbers (plain_of seg.now (datagram_in self.old.packet)))
            self.old self.new result }
    {
        let piece = seg.text(self.packet.bytes());
        let step = take_segment(&mut self.table, &mut self.shared, slot, seg, piece);
        let answer = ask_app(
            &mut self.table,
            &self.shared,
            slot,
            step,
            self.ticks,
            &self.net,
        );
        self.send_step(slot, answer)
    }

    /// Opens a connection for a plain SYN in a slot.
    fn open(&mut self, slot: usize, peer: Addr, seg: &Segment) -> Option<usize>
        requires within { slot < length self.old.table.conns }
        requires free { NoneAt peer seg.now.from seg.now.to self.old.table.conns }
        ensures same { A.config self.new.shared ≡ A.config self.old.shared }
        ensures quiet { result ≡ None → self.new.packet ≡ self.old.packet }
        ensures step { OpensBy A.App slot (sockets_of peer seg.now) seg.now self.old self.new result }
    {
        let step = open_in(&mut self.table, slot, peer, seg);
        self.send_step(slot, step)
    }

    /// Replies with a RST to a segment of no connection (RFC 793, section 3.4).
    fn refuse(&mut self, peer: Addr, seg: &Segment) -> Option<usize>
        ensures same { A.config self.new.shared ≡ A.config self.old.shared }
        ensures quiet { result ≡ None → self.new.packet ≡ self.old.packet }
        ensures step { AnswersPeer A.App (sockets_of peer seg.now) seg.now (λ m n s t. refuses n s t) self.old self.new result }
    {
        let id = self.ident.wrapping_add(1);
        let len = put_reset(&mut self.packet, self.addr, peer, seg, id);
        event_counts::segment_sent(&mut self.net, false);
        self.ident = id;
        Some(len)
    }

    /// Opens a connection for a plain SYN to a served port, if there is a slot; else drops and counts it.
    fn passive_open(&mut self, peer: Addr, seg: &Segment) -> Option<usize>
        requires free { NoneAt peer seg.now.from seg.now.to self.old.table.conns }
        ensures same { A.config self.new.shared ≡ A.config self.old.shared }
        ensures quiet { result ≡ None → self.new.packet ≡ self.old.packet }
        ensures step { AnswersPeer A.App (sockets_of peer seg.now) seg.now (λ m n s t. opens m n s t (slot_for_syn n.connections))
            self.old self.new result }
    {
        match self.table.slot_for_syn() {
            Some(slot) => self.open(slot, peer, seg),
            None => {
                event_counts::turn_away(&mut self.net);
                None
            }
        }
    }

    /// Handles a segment of no connection: a passive open, nothing for a RST, else a RST.
    fn answer_no_connection(&mut self, peer: Addr, seg: &Segment) -> Option<usize>
        requires free { NoneAt peer seg.now.from seg.now.to self.old.table.conns }
        ensures same { A.config self.new.shared ≡ A.config self.old.shared }
        ensures quiet { result ≡ None → self.new.packet ≡ self.old.packet }
        ensures step { AnswersPeer A.App (sockets_of peer seg.now) seg.now (λ m n s t. for_no_connection m A.served n s t)
            self.old self.new result }
    {
        if opens_here::<A>(seg) {
            self.passive_open(peer, seg)
        } else if seg.has_rst() {
            None
        } else {
            self.refuse(peer, seg)
        }
    }

    /// Handles a segment from a peer, which is in the packet (RFC 793, section 3.9, SEGMENT ARRIVES).
    pub fn segment_arrives(&mut self, peer: Addr, seg: &Segment) -> Option<usize>
        requires inside { seg.now.text_at + seg.now.text_len ≤ length (datagram_in self.old.packet) }
        ensures refines { Refines A.App
            (λ m served n. arrives m served n (sockets_of peer seg.now)
            (plain_of seg.now (datagram_in self.old.packet))) self.old self.new result }
        ensures quiet { result ≡ None → self.new.packet ≡ self.old.packet }
    {
        event_counts::segment_arrives(&mut self.net);
        match self.table.find(peer, seg.from, seg.to) {
            Some(slot) => self.deliver(slot, seg),
            None => self.answer_no_connection(peer, seg),
        }
    }

    /// Counts a datagram that fails a check of its IP header.
    pub fn refuse_datagram(&mut self, fate: IpFate)
        ensures { Refines A.App (λ m served n. step m served n (IpRefused fate)) self.old self.new None }
    {
        event_counts::refuse_ip(&mut self.net, fate);
    }

    /// Counts a datagram whose TCP segment fails a check.
    pub fn refuse_segment(&mut self, fate: TcpFate)
        ensures { Refines A.App (λ m served n. step m served n (TcpRefused fate)) self.old self.new None }
    {
        event_counts::refuse_tcp(&mut self.net, fate);
    }

    /// Handles the TCP datagram in the packet.
    fn take_tcp(&mut self, head: &IpHead) -> Option<usize>
        requires head { IsHeadOf head.now (datagram_in self.old.packet) }
        requires most { head.now.total ≤ length (datagram_in self.old.packet) }
        ensures { Refines A.App
            (λ m served n. step m served n
            (by_segment head.now (datagram_in self.old.packet)
            (segment_or_fate head.now (datagram_in self.old.packet)))) self.old self.new result }
    {
        match check_segment(self.packet.bytes(), head) {
            Err(fate) => {
                self.refuse_segment(fate);
                None
            }
            Ok(seg) => self.segment_arrives(head.source, &seg),
        }
    }

    /// Handles the ICMP datagram in the packet, whose header passed its checks (RFC 792).
    pub fn take_icmp(&mut self, head: &IpHead) -> Option<usize>
        requires head { IsHeadOf head.now (datagram_in self.old.packet) }
        requires most { head.now.total ≤ length (datagram_in self.old.packet) }
        ensures { Refines A.App
            (λ m served n. step m served n (by_proto Proto.Icmp head.now (datagram_in self.old.packet))) self.old self.new result }
    {
        match reply(&mut self.packet, head) {
            Err(fate) => {
                event_counts::refuse_icmp(&mut self.net, fate);
                None
            }
            Ok(()) => {
                event_counts::echo(&mut self.net);
                Some(self.packet.bytes().len())
            }
        }
    }

    /// Handles the datagram in the packet: checks its IP header (RFC 791) and dispatches its protocol.
    pub fn take_datagram(&mut self) -> Option<usize>
        ensures { Refines A.App (λ m served n. step m served n (event_of n.addr (datagram_in self.old.packet))) self.old self.new result }
    {
        match check_head(self.packet.bytes(), self.addr) {
            Err(fate) => {
                self.refuse_datagram(fate);
                None
            }
            Ok(head) => match head.proto {
                Proto::Icmp => self.take_icmp(&head),
                Proto::Tcp => self.take_tcp(&head),
            },
        }
    }

    /// Inputs a datagram of at most 1500 bytes. The reply is then in the packet; returns its length in bytes, or `None`.
    pub fn input(&mut self, datagram: &[u8]) -> Option<usize>
        requires most { length datagram.now ≤ LARGEST_DATAGRAM }
        ensures { Refines A.App (λ m served n. step m served n (event_of n.addr datagram.now)) self.old self.new result }
    {
        self.packet.load(datagram);
        self.take_datagram()
    }

    /// Inputs a datagram of at most 1500 bytes that was received at the start of the packet's area, as `input`.
    pub fn input_in_place(&mut self, len: usize) -> Option<usize>
        requires most { len ≤ LARGEST_DATAGRAM }
        ensures { Refines A.App (λ m served n. step m served n (event_of n.addr (take len self.old.packet.area))) self.old self.new result }
    {
        self.packet.set_len(len);
        self.take_datagram()
    }

    /// Makes the periodic call of the connection in a slot below 10; all ten are due twice a second, slot 0 first.
    pub fn periodic(&mut self, slot: usize) -> Option<usize>
        requires within { slot < 10 }
        ensures refines { Refines A.App (λ m served n. step m served n (Periodic slot)) self.old self.new result }
        ensures quiet { result ≡ None → self.new.packet ≡ self.old.packet }
    {
        count_slots(&self.table);
        self.ticks = event_counts::ticks_at(self.ticks, slot);
        self.table.next_iss();
        if !is_live_in(&self.table, slot) {
            return None;
        }
        let step = take_tick(&mut self.table, &mut self.shared, slot);
        let answer = ask_app(
            &mut self.table,
            &self.shared,
            slot,
            step,
            self.ticks,
            &self.net,
        );
        self.send_step(slot, answer)
    }
}
