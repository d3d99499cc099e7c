//! A device and its calls: a node, whose packet is also the area in which SLIP frames (RFC 1055) are received, and the output that is still
//! pending.

ghost use Rattle.std.specs.Prelude.{◌≡◌, ◌<◌, ◌≤◌, ◌+◌, ◌++◌, ◌∷◌, [], List, ℕ, None, Some, length, map, take};
ghost use Rattle.packet_buffer.specs.Prelude.{datagram_in};
ghost use Rattle.uip_edge.specs.declared.item.Item.TheVariants.{Byte};
ghost use Rattle.uip_slip.specs.Prelude.{FeedsPrefix, WasFed, frames, state_in};
ghost use Rattle.uip_slip.specs.declared.fed.Fed.TheVariants.{More};
ghost use Rattle.guarded_node.specs.Arrivals.Arrival.{Received};
ghost use Rattle.uip_device.specs.Calls.{StopsAtEnd, arrivals_after};
ghost use Rattle.uip_device.specs.Handing.{IsPartWritten, text_to_come};
ghost use Rattle.uip_device.specs.Sending.{SendsOver, text_sent};

use crate::datagrams::copy_sent;
use crate::node_status::{is_node_idle, node_counter, node_row, node_ticks};
use crate::pending_output::{LARGEST_TEXT, Written, hand_on, write_text};
use app_events::{App, Row};
use guarded_node::{Guard, guarded_input, guarded_input_in_place, guarded_periodic};
use sip_hash::Key;
use std::alloc::Global;
use uip_edge::NoMemory;
use uip_node::Node;
use uip_slip::{Fed, FedRun, Part};
use uip_wire::{Addr, LARGEST_DATAGRAM, Port};

/// The bytes of a line that were consumed, and the bytes that were written at the start of the area.
#[derive(Clone, Copy, Debug, PartialEq, Eq)]
pub struct FeedResult {
    pub consumed: usize,
    pub written: usize,
}

/// A device: a node with an application and its guard, on a serial line or a link that carries whole IP datagrams.
/// [add: c-call] A method of `Device`.
#[derive(Drop)]
pub struct Device<A: App> {
    /// What is known of the frame that is received in the node's packet.
    pub part: Part,
    pub guard: Guard,
    pub node: Node<A>,
    /// The bytes of the datagram in the packet whose text was written already; `None` if no output is pending.
    pub left: Option<usize>,
}

/// Receives a prefix of the bytes of a line in the node's packet: up to an END that completes a frame, or all of them.
fn receive<A: App>(part: &mut Part, node: &mut Node<A>, bytes: &[u8]) -> FedRun
    requires some { 0 < length bytes.now }
    ensures rest { node.new ≡ record node.old { packet = record node.old.packet { area = node.new.packet.area } } }
    ensures prefix { FeedsPrefix (state_in node.old.packet.area part.old) bytes.now result (state_in node.new.packet.area part.new) }
    ensures whole { result.fed ≡ More → result.count ≡ length bytes.now }
{
    part.feed_run(node.packet.area_mut(), bytes)
}

/// Inputs the datagram at the start of the node's packet and writes the text of the reply.
fn answer<A: App>(guard: &mut Guard, node: &mut Node<A>, len: usize, out: &mut [u8]) -> Written
    requires most { len ≤ LARGEST_DATAGRAM }
    requires room { 0 < length out.old }
    ensures long { length out.new ≡ length out.old }
    ensures part { IsPartWritten (datagram_in node.new.packet) result.wrote result.left (length out.new) }
    ensures sends { SendsOver A.App (Received (take len node.old.packet.area) ∷ []) guard.old guard.new node.old node.new
        (λ own replies. text_sent guard.old.rules.key own replies
        ≡ take result.wrote out.new ++ text_to_come (datagram_in node.new.packet) result.left) }
{
    let sent = guarded_input_in_place(guard, node, len);
    write_text(node, sent, out)
}

/// The bytes that were consumed, and what was written.
#[derive(Clone, Copy, Debug)]
struct Taken {
    count: usize,
    written: Written,
}

/// Consumes all bytes, or those up to an END, so that at most one frame becomes complete, and writes the text of the reply.
fn take<A: App>(
    part: &mut Part,
    guard: &mut Guard,
    node: &mut Node<A>,
    bytes: &[u8],
    out: &mut [u8],
) -> Taken
    requires some { 0 < length bytes.now }
    requires room { 0 < length out.old }
    ensures taken { (0 < result.count) × (result.count ≤ length bytes.now) }
    ensures stops { StopsAtEnd bytes.now result.count }
    ensures one { (before : List ℕ) → WasFed before (state_in node.old.packet.area part.old)
        → length (frames (before ++ take result.count bytes.now)) ≤ length (frames before) + 1 }
    ensures long { length out.new ≡ length out.old }
    ensures part { IsPartWritten (datagram_in node.new.packet) result.written.wrote result.written.left (length out.new) }
    ensures fed { (before : List ℕ) → WasFed before (state_in node.old.packet.area part.old) → WasFed (before ++ take result.count bytes.now) (state_in node.new.packet.area part.new) }
    ensures sends { (before : List ℕ) → WasFed before (state_in node.old.packet.area part.old)
        → SendsOver A.App (arrivals_after 0 before (map Byte (take result.count bytes.now))) guard.old guard.new node.old node.new
        (λ own replies. text_sent guard.old.rules.key own replies
        ≡ take result.written.wrote out.new ++ text_to_come (datagram_in node.new.packet) result.written.left) }
{
    let run = receive(part, node, bytes);
    let written = match run.fed {
        Fed::More => Written::nothing(),
        Fed::Overlong => {
            node.count_overlong();
            Written::nothing()
        }
        Fed::Datagram(len) => answer(guard, node, len, out),
    };
    Taken {
        count: run.count,
        written,
    }
}

impl<A: App> Device<A> {
    ghost use Rattle.std.specs.Prelude.{◌≡◌, ◌<◌, ◌≤◌, IfOk, None, Some, false, length, nat_lt, slice_get, take, true};
    ghost use Rattle.uip_node.specs.Counters.{counters, ticks_of};
    ghost use Rattle.uip_node.specs.Node.{AbstractNode};
    ghost use Rattle.uip_node.specs.Represents.{Represents};
    ghost use Rattle.uip_device.specs.Calls.{Calls, CallsForDatagram, Drains, Feeds, Inputs};
    ghost use Rattle.uip_device.specs.Devices.{Answers, AnswersOver, CompleteOne, HasFilled, IsFreshDevice, IsFreshWithoutSecret};
    ghost use Rattle.uip_device.specs.Devices.{IsProtected, IsSoundDevice, connection_row, is_node_idle};

    /// Returns a device at an address, whose application shares a value among its connections, with the port of its pages, if there is one.
    /// No later call allocates memory (measured).
    pub fn new(
        alloc: Global,
        own: Addr,
        pages: Option<Port>,
        shared: A::Shared,
    ) -> Result<Device<A>, NoMemory>
        ensures fresh { IfOk result (λ d. IsFreshDevice A.App (A.app_spec (A.config shared)) (A.numbers shared) own
            (record { key = None; pages = pages }) d) }
        ensures shared { IfOk result (λ d. d.node.shared ≡ shared) }
    {
        Ok(Device {
            part: Part::new(),
            guard: Guard::new(pages),
            node: Node::new(alloc, own, shared)?,
            left: None,
        })
    }

    /// Sets the secret of the guard, which makes the sequence numbers unpredictable. It must be set before the first input: if there is a
    /// secret, or the node has received a datagram or counted a tick, nothing changes and the result is false.
    pub fn protect(&mut self, key: Key) -> bool
        requires sound { IsSoundDevice A.App self.old }
        ensures sound { IsSoundDevice A.App self.new }
        ensures set { result ≡ true → IsProtected key self.old self.new }
        ensures kept { result ≡ false → self.new ≡ self.old }
        ensures fresh { IsFreshWithoutSecret A.App self.old → result ≡ true }
    {
        if node_ticks(&self.node) != 0 || node_counter(&self.node, 0) != 0 {
            return false;
        }
        self.guard.protect(key)
    }

    /// Feeds received serial bytes, all of them or up to an END, so that at most one frame becomes complete. Writes the text of the reply,
    /// or the part of it that fits. Requires that no output is pending.
    pub fn feed(&mut self, bytes: &[u8], out: &mut [u8]) -> FeedResult
        requires some { 0 < length bytes.now }
        requires room { 0 < length out.old }
        requires none { self.old.left ≡ None }
        requires sound { IsSoundDevice A.App self.old }
        ensures sound { IsSoundDevice A.App self.new }
        ensures long { length out.new ≡ length out.old }
        ensures wrote { result.written ≤ length out.new }
        ensures taken { (0 < result.consumed) × (result.consumed ≤ length bytes.now) }
        ensures stops { StopsAtEnd bytes.now result.consumed }
        ensures one { CompleteOne (take result.consumed bytes.now) self.old }
        ensures all { LARGEST_TEXT ≤ length out.old → self.new.left ≡ None }
        ensures full { HasFilled self.new result.written (length out.new) }
        ensures answers { Answers A.App (Feeds (take result.consumed bytes.now)) self.old self.new (take result.written out.new) }
    {
        let taken = take(&mut self.part, &mut self.guard, &mut self.node, bytes, out);
        self.left = taken.written.left;
        FeedResult {
            consumed: taken.count,
            written: taken.written.wrote,
        }
    }

    /// Makes the periodic call of a slot; all ten are due twice a second. Writes the text of what is sent, or the part of it that fits, and
    /// returns its length in bytes. Requires that no output is pending.
    /// If it sends while a frame is partly received, that frame is lost.
    pub fn periodic(&mut self, slot: usize, out: &mut [u8]) -> usize
        requires slot { slot < 10 }
        requires room { 0 < length out.old }
        requires none { self.old.left ≡ None }
        requires sound { IsSoundDevice A.App self.old }
        ensures sound { IsSoundDevice A.App self.new }
        ensures long { length out.new ≡ length out.old }
        ensures wrote { result ≤ length out.new }
        ensures all { LARGEST_TEXT ≤ length out.old → self.new.left ≡ None }
        ensures full { HasFilled self.new result (length out.new) }
        ensures answers { AnswersOver A.App (Calls slot) (nat_lt 0 result) self.old self.new (take result out.new) }
    {
        let sent = guarded_periodic(&self.guard, &mut self.node, slot);
        match sent {
            None => 0,
            Some(_) => {
                self.part.give_up();
                let written = write_text(&self.node, sent, out);
                self.left = written.left;
                written.wrote
            }
        }
    }

    /// Writes pending output, as much as fits, and returns its length in bytes.
    pub fn drain(&mut self, out: &mut [u8]) -> usize
        requires sound { IsSoundDevice A.App self.old }
        ensures sound { IsSoundDevice A.App self.new }
        ensures long { length out.new ≡ length out.old }
        ensures wrote { result ≤ length out.new }
        ensures some { (self.old.left ≡ None → ⊥) → 2 ≤ length out.old → 0 < result }
        ensures full { HasFilled self.new result (length out.new) }
        ensures answers { Answers A.App Drains self.old self.new (take result out.new) }
    {
        match self.left {
            None => 0,
            Some(at) => {
                let written = hand_on(&self.node, at, out);
                self.left = written.left;
                written.wrote
            }
        }
    }

    /// Inputs a datagram of at most 1500 bytes and writes the reply, if there is one. Returns its length in bytes. A frame that is partly
    /// received is lost.
    pub fn input(&mut self, datagram: &[u8], out: &mut [u8]) -> usize
        requires most { length datagram.now ≤ LARGEST_DATAGRAM }
        requires room { LARGEST_DATAGRAM ≤ length out.old }
        requires none { self.old.left ≡ None }
        requires sound { IsSoundDevice A.App self.old }
        ensures sound { IsSoundDevice A.App self.new }
        ensures long { length out.new ≡ length out.old }
        ensures wrote { result ≤ length out.new }
        ensures none { self.new.left ≡ None }
        ensures answers { AnswersOver A.App (Inputs datagram.now) true self.old self.new (take result out.new) }
    {
        self.part.give_up();
        let sent = guarded_input(&mut self.guard, &mut self.node, datagram);
        copy_sent(&self.node, sent, out)
    }

    /// Makes the periodic call of a slot, as `periodic`, over a link that carries datagrams.
    pub fn periodic_datagram(&mut self, slot: usize, out: &mut [u8]) -> usize
        requires slot { slot < 10 }
        requires room { LARGEST_DATAGRAM ≤ length out.old }
        requires none { self.old.left ≡ None }
        requires sound { IsSoundDevice A.App self.old }
        ensures sound { IsSoundDevice A.App self.new }
        ensures long { length out.new ≡ length out.old }
        ensures wrote { result ≤ length out.new }
        ensures none { self.new.left ≡ None }
        ensures answers { AnswersOver A.App (CallsForDatagram slot) true self.old self.new (take result out.new) }
    {
        self.part.give_up();
        let sent = guarded_periodic(&self.guard, &mut self.node, slot);
        copy_sent(&self.node, sent, out)
    }

    /// Returns the number of ticks, modulo 2^32.
    pub fn ticks(&self) -> u32
        ensures { (n : AbstractNode) → Represents A.App self.now.node n n.history → result ≡ ticks_of n.history }
    {
        node_ticks(&self.node)
    }

    /// Returns whether no connection is open. A tick of an idle node only counts.
    pub fn is_idle(&self) -> bool
        ensures { (n : AbstractNode) → Represents A.App self.now.node n n.history → result ≡ is_node_idle n }
    {
        is_node_idle(&self.node)
    }

    /// Returns the row of the connection in a slot, as `tcp-connections` shows it; `None` if it is CLOSED.
    pub fn row(&self, slot: usize) -> Option<Row>
        ensures { (n : AbstractNode) → Represents A.App self.now.node n n.history → result ≡ connection_row slot n }
    {
        node_row(&self.node, slot)
    }

    /// Returns the counter at an index below 20, modulo 2^32.
    /// [add: counter] The bound of the number.
    pub fn counter(&self, place: usize) -> u32
        requires { place < 20 }
        ensures { (n : AbstractNode) → Represents A.App self.now.node n n.history → slice_get (counters n.history) place ≡ Some result }
    {
        node_counter(&self.node, place)
    }
}
