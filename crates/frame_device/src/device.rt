//! A device, and the calls of it.

ghost use Rattle.std.specs.Prelude.{◌≡◌, ◌≤◌, ◌++◌, [], List, flat_map, length, take, ℕ};
ghost use Rattle.uip_wire.specs.declared.addr.Addr.{Addr as Address};
ghost use Rattle.uip_node.specs.Prelude.{Reply, reply_bytes};
ghost use Rattle.guarded_node.specs.Runs.{IsSentOver};
ghost use Rattle.frame_device.specs.FrameSpecs.{acts_before, acts_output};

use crate::frames::{Decoded, Frames, LARGEST_OUT};
use app_events::App;
use guarded_node::{Guard, guarded_input, guarded_periodic};
use sip_hash::Key;
use std::alloc::Global;
use uip_edge::NoMemory;
use uip_node::Node;
use uip_wire::{Addr, Port};

/// A device: a node with an application, its guard, and the link that carries its datagrams.
#[derive(Drop)]
pub struct FrameDevice<A: App, M: Frames> {
    pub frames: M,
    pub node: Node<A>,
    pub guard: Guard,
    /// A frame was received, or a slot was called: a secret would be too late.
    pub is_used: bool,
}

/// Writes the frame for the datagram that a call of the node sent, if it sent one. Returns its length.
fn write_sent<A: App, M: Frames>(
    frames: &M,
    node: &Node<A>,
    sent: Option<usize>,
    out: &mut [u8],
) -> usize
    requires room { LARGEST_OUT ≤ length out.old }
    ensures long { length out.new ≡ length out.old }
    ensures within { result ≤ length out.new }
    ensures text { (k : M.Config) (acts : List M.Act) (wire : List ℕ → List ℕ) (own : Address) (replies : List Reply)
        → M.did frames.now k acts → IsSentOver wire own replies sent node.now.packet
        → take result out.new ≡ flat_map (λ reply. (M.spec k).text acts (wire (reply_bytes own reply))) replies }
{
    match sent {
        None => 0,
        Some(_) => frames.wrap(node.packet(), out),
    }
}

/// Begins a tick with the call of slot 0.
fn begin_tick<M: Frames>(frames: &mut M, slot: usize)
    ensures silent { (k : M.Config) → acts_output (M.spec k) (acts_before (M.spec k) slot) ≡ [] }
    ensures did { (k : M.Config) (acts : List M.Act) → M.did frames.old k acts
        → M.did frames.new k (acts ++ acts_before (M.spec k) slot) }
{
    if slot == 0 {
        frames.tick();
    }
}

impl<A: App, M: Frames> FrameDevice<A, M> {
    ghost use Rattle.std.specs.Prelude.{◌≡◌, ◌<◌, ◌≤◌, ◌||◌, IfOk, false, is_some, length, not, take, true};
    ghost use Rattle.frame_device.specs.FrameCalls.{AnswersFrame, InputsFrame, CallsSlot, GainsSecret, IsFreshFrameDevice};
    ghost use Rattle.guarded_node.specs.Counts.{initial_guard};

    /// Makes a device at an address. The connections of its application share a value. Its guard has no secret; `pages` is the port at
    /// which a connection may be given up because its host holds many. After this no call allocates memory.
    pub fn new(
        alloc: Global,
        own: Addr,
        frames: M,
        shared: A::Shared,
        pages: Option<Port>,
    ) -> Result<FrameDevice<A, M>, NoMemory>
        ensures fresh { IfOk result (λ d. (k : M.Config) → M.did frames k []
            → IsFreshFrameDevice A.App M.Frames k (A.app_spec (A.config shared)) (A.numbers shared) (initial_guard pages).rules own d) }
        ensures shared { IfOk result (λ d. d.node.shared ≡ shared) }
        ensures guard { IfOk result (λ d. d.guard ≡ initial_guard pages) }
    {
        Ok(FrameDevice {
            frames,
            node: Node::new(alloc, own, shared)?,
            guard: Guard::new(pages),
            is_used: false,
        })
    }

    /// Sets the secret of the guard, and returns whether it was set. If there is one, or a frame was received or a slot was called, it
    /// changes nothing.
    pub fn protect(&mut self, key: Key) -> bool
        ensures may { result ≡ not (self.old.is_used || is_some self.old.guard.rules.key) }
        ensures set { result ≡ true → GainsSecret key self.old self.new }
        ensures refused { result ≡ false → self.new ≡ self.old }
    {
        !self.is_used && self.guard.protect(key)
    }

    /// Receives the frame of `len` bytes at the start of a buffer, and writes the frame that is sent, if there is one, to the same place.
    /// Returns its length.
    pub fn input(&mut self, buf: &mut [u8], len: usize) -> usize
        requires within { len ≤ length buf.old }
        requires room { LARGEST_OUT ≤ length buf.old }
        ensures long { length buf.new ≡ length buf.old }
        ensures wrote { result ≤ length buf.new }
        ensures answers { AnswersFrame A.App M.Frames (InputsFrame (take len buf.old)) self.old self.new (take result buf.new) }
    {
        self.is_used = true;
        match self.frames.take(buf, len) {
            Decoded::Nothing => 0,
            Decoded::Own(len) => len,
            Decoded::Datagram { at, len } => {
                let sent = guarded_input(&mut self.guard, &mut self.node, &buf[at..at + len]);
                write_sent(&self.frames, &self.node, sent, buf)
            }
        }
    }

    /// Makes the periodic call of a slot, due for each of the ten in turn twice a second; that of slot 0 begins a tick. Writes the
    /// frame that is sent, if there is one. Returns its length.
    pub fn periodic(&mut self, slot: usize, out: &mut [u8]) -> usize
        requires slot { slot < 10 }
        requires room { LARGEST_OUT ≤ length out.old }
        ensures long { length out.new ≡ length out.old }
        ensures wrote { result ≤ length out.new }
        ensures answers { AnswersFrame A.App M.Frames (CallsSlot slot) self.old self.new (take result out.new) }
    {
        self.is_used = true;
        begin_tick(&mut self.frames, slot);
        let sent = guarded_periodic(&self.guard, &mut self.node, slot);
        write_sent(&self.frames, &self.node, sent, out)
    }
}
