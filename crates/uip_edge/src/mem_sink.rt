//! A sink in memory, of which planned calls fail.

ghost use Rattle.std.specs.Prelude.{◌≡◌, ◌<◌, ◌≤◌, ◌-◌, ◌↔◌, ◌⊎◌, [], length, min, Contains, IsErr, IfOk, OnErr, Some};
ghost use Rattle.std.specs.Io.KnownBytes.{WriteAppends};
ghost use Rattle.uip_edge.specs.Causes.{HasCause, counted_on};

use crate::failed::Failed;
use crate::no_memory::NoMemory;
use crate::sink::Sink;
use std::alloc::Global;
use std::marker::Model;

/// A sink in memory with a fixed capacity in bytes. The calls whose numbers, counted from 1, are in `fails` fail, and so does a write if no
/// room is left.
#[derive(Drop)]
pub struct MemSink {
    text: Vec<u8>,
    room: usize,
    fails: Vec<u64>,
    calls: u64,
    faults: u64,
}

impl Model for MemSink {
    ghost use Rattle.std.specs.Prelude.{◌≤◌, length, vec_capacity};
    ghost use Rattle.uip_edge.specs.Memory.{SinkContent};

    ghost Value = { SinkContent };

    ghost view = { λ sink. record {
      text = sink.text.items;
      room = sink.room;
      fails = sink.fails.items;
      calls = sink.calls;
      faults = sink.faults;
    } };

    // The capacity was allocated at the start, so that no write allocates.
    ghost invariant = { λ sink. (length sink.text.items ≤ sink.room) × (sink.room ≤ vec_capacity sink.text) };
}

impl MemSink {
    /// Returns an empty sink. Allocates its capacity here, so that no write allocates.
    pub fn new(alloc: Global, room: usize, fails: Vec<u64>) -> Result<MemSink, NoMemory>
        ensures { IfOk result (λ sink. sink ≡ record { text = []; room = room; fails = fails.items; calls = 0; faults = 0 }) }
    {
        match Vec::with_capacity(alloc, room) {
            Ok(text) => Ok(MemSink {
                text,
                room,
                fails,
                calls: 0,
                faults: 0,
            }),
            Err(_) => Err(NoMemory),
        }
    }

    /// Returns what was written.
    pub fn written(&self) -> &[u8]
        ensures { result.now ≡ self.now.text }
    {
        &self.text
    }
}

impl Sink for MemSink {
    ghost written = { λ sink. Some sink.text };

    ghost faults = { λ sink. sink.faults };

    fn write(&mut self, piece: &[u8]) -> Result<usize, Failed>
        ensures within { IfOk result (λ n. n ≤ length piece.now) }
        ensures progress { IfOk result (λ n. 0 < length piece.now → 0 < n) }
        ensures bytes { WriteAppends (Some self.old.text) (Some self.new.text) result piece.now }
        ensures cause { HasCause self.old.faults self.new.faults result }

        // A call fails exactly if its number is planned, or if the piece is not empty and no room is left.
        ensures numbered { self.new.calls ≡ counted_on self.old.calls }
        ensures planned { IsErr result
            ↔ (Contains self.old.fails self.new.calls ⊎ ((0 < length piece.now) × (self.old.room ≤ length self.old.text))) }
        ensures counted { OnErr result (self.new.faults ≡ counted_on self.old.faults) }
        ensures taken { IfOk result (λ n. n ≡ min (length piece.now) (self.old.room - length self.old.text)) }
        ensures kept { (self.new.room ≡ self.old.room) × (self.new.fails ≡ self.old.fails) }
    {
        self.calls = self.calls.saturating_add(1);
        let count = piece.len().min(self.room - self.text.len());
        let is_full = count == 0 && !piece.is_empty();
        if self.fails.contains(&self.calls) || is_full {
            self.faults = self.faults.saturating_add(1);
            return Err(Failed);
        }
        match self.text.extend_from_slice(&piece[..count]) {
            Ok(()) => Ok(count),
            Err(_) => unreachable!(),
        }
    }
}
