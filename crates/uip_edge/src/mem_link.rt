//! A link in memory, of which planned calls fail.

ghost use Rattle.std.specs.Prelude.{◌≡◌, ◌<◌, ◌≤◌, ◌↔◌, length, take, min, map, Contains, IsErr, IfOk, OnErr, Ok, Some};
ghost use Rattle.uip_edge.specs.Causes.{HasCause, counted_on};
ghost use Rattle.uip_edge.specs.Coming.{items_of, CountFits, Consumes, IsAtEnd};
ghost use Rattle.uip_edge.specs.Memory.{byte_run, given, item_count};
ghost use Rattle.uip_edge.specs.declared.item.Item.TheVariants as item;

use crate::failed::Failed;
use crate::got::Got;
use crate::item::Item;
use crate::link::Link;
use std::marker::Model;

/// Copies the bytes at the start of the items, up to the first silence, as far as they fit.
fn copy_run(items: &[Item], buf: &mut [u8]) -> usize
    ensures count { result ≡ min (length buf.new) (byte_run items.now) }
    ensures bytes { take result items.now ≡ map item.Byte (take result buf.new) }
{
    let room = buf.len().min(items.len());
    for at in 0..room {
        match items[at] {
            Item::Byte(byte) => buf[at] = byte,
            Item::Quiet => return at,
        }
    }
    room
}

/// Takes a silence, or at most `most` bytes.
pub fn copy_items(items: &[Item], most: usize, buf: &mut [u8]) -> Got
    ensures given { result ≡ given (min most (length buf.new)) items.now }
    ensures items { take (item_count result) items.now ≡ items_of (Ok result) buf.new }
    ensures within { item_count result ≤ length items.now }
{
    let room = most.min(buf.len());
    match items {
        [] => Got::End,
        [Item::Quiet, ..] => Got::Quiet,
        [Item::Byte(_), ..] => Got::Bytes(copy_run(items, &mut buf[..room])),
    }
}

/// Returns the number of items that a result takes.
pub fn count_of(got: Got) -> usize
    ensures { result ≡ item_count got }
{
    match got {
        Got::Bytes(count) => count,
        Got::Quiet => 1,
        Got::End => 0,
    }
}

/// A link in memory. A call returns at most `most` bytes. The calls whose numbers, counted from 1, are in `fails` fail.
#[derive(Drop)]
pub struct MemLink {
    items: Vec<Item>,
    at: usize,
    most: usize,
    fails: Vec<u64>,
    calls: u64,
    faults: u64,
}

impl Model for MemLink {
    ghost use Rattle.std.specs.Prelude.{◌<◌, ◌≤◌, drop, length};
    ghost use Rattle.uip_edge.specs.Memory.{LinkContent};

    ghost Value = { LinkContent };

    ghost view = { λ link. record {
      left = drop link.at link.items.items;
      most = link.most;
      fails = link.fails.items;
      calls = link.calls;
      faults = link.faults;
    } };

    ghost invariant = { λ link. (0 < link.most) × (link.at ≤ length link.items.items) };
}

impl MemLink {
    pub fn new(items: Vec<Item>, most: usize, fails: Vec<u64>) -> MemLink
        requires { 0 < most }
        ensures { result ≡ record { left = items.items; most = most; fails = fails.items; calls = 0; faults = 0 } }
    {
        MemLink {
            items,
            at: 0,
            most,
            fails,
            calls: 0,
            faults: 0,
        }
    }

    /// Returns the items to come.
    fn rest(&self) -> &[Item]
        ensures { result.now ≡ self.now.left }
    {
        &self.items[self.at..]
    }
}

impl Link for MemLink {
    ghost coming = { λ link. Some link.left };

    ghost faults = { λ link. link.faults };

    fn next(&mut self, buf: &mut [u8]) -> Result<Got, Failed>
        requires { 0 < length buf.old }
        ensures count { CountFits result (length buf.new) }
        ensures items { Consumes (Some self.old.left) (Some self.new.left) (items_of result buf.new) }
        ensures end { IsAtEnd result (Some self.old.left) }
        ensures cause { HasCause self.old.faults self.new.faults result }

        // A call fails exactly if its number is planned. Else it returns all that is there and fits.
        ensures numbered { self.new.calls ≡ counted_on self.old.calls }
        ensures planned { IsErr result ↔ Contains self.old.fails self.new.calls }
        ensures counted { OnErr result (self.new.faults ≡ counted_on self.old.faults) }
        ensures given { IfOk result (λ got. got ≡ given (min self.old.most (length buf.old)) self.old.left) }
        ensures kept { (self.new.most ≡ self.old.most) × (self.new.fails ≡ self.old.fails) }
    {
        self.calls = self.calls.saturating_add(1);
        if self.fails.contains(&self.calls) {
            self.faults = self.faults.saturating_add(1);
            return Err(Failed);
        }
        let got = copy_items(self.rest(), self.most, buf);
        self.at += count_of(got);
        Ok(got)
    }
}
