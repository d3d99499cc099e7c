ghost use Rattle.std.specs.Prelude.{◌≡◌, ◌<◌, ◌≤◌, length, min, Ok, Some};
ghost use Rattle.uip_edge.specs.Causes.{HasCause};
ghost use Rattle.uip_edge.specs.Coming.{items_of, CountFits, Consumes, IsAtEnd};
ghost use Rattle.uip_edge.specs.Memory.{given};

use crate::failed::Failed;
use crate::got::Got;
use crate::item::Item;
use crate::link::Link;
use crate::mem_link::{copy_items, count_of};
use std::marker::Model;

/// A link in memory of which no call fails. A call returns at most `most` bytes.
#[derive(Drop)]
pub struct SureLink {
    items: Vec<Item>,
    at: usize,
    most: usize,
}

impl Model for SureLink {
    ghost use Rattle.std.specs.Prelude.{◌<◌, ◌≤◌, drop, length};
    ghost use Rattle.uip_edge.specs.Memory.{SureContent};

    ghost Value = { SureContent };

    ghost view = { λ link. record { left = drop link.at link.items.items; most = link.most } };

    ghost invariant = { λ link. (0 < link.most) × (link.at ≤ length link.items.items) };
}

impl SureLink {
    pub fn new(items: Vec<Item>, most: usize) -> SureLink
        requires { 0 < most }
        ensures { result ≡ record { left = items.items; most = most } }
    {
        SureLink { items, at: 0, most }
    }

    /// Returns the items to come.
    fn rest(&self) -> &[Item]
        ensures { result.now ≡ self.now.left }
    {
        &self.items[self.at..]
    }
}

impl Link for SureLink {
    ghost coming = { λ link. Some link.left };

    ghost faults = { λ _. 0 };

    fn next(&mut self, buf: &mut [u8]) -> Result<Got, Failed>
        requires { 0 < length buf.old }
        ensures count { CountFits result (length buf.new) }
        ensures items { Consumes (Some self.old.left) (Some self.new.left) (items_of result buf.new) }
        ensures end { IsAtEnd result (Some self.old.left) }
        ensures cause { HasCause 0 0 result }
        ensures given { result ≡ Ok (given (min self.old.most (length buf.old)) self.old.left) }
        ensures kept { self.new.most ≡ self.old.most }
    {
        let got = copy_items(self.rest(), self.most, buf);
        self.at += count_of(got);
        Ok(got)
    }
}
