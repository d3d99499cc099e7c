//! A host on Ethernet and its ARP table (RFC 826).

ghost use Rattle.std.specs.List.{position_or_len};
ghost use Rattle.std.specs.Prelude.{◌≡◌, ◌<◌, ◌++◌, [], ◌∷◌, List, Some, map, option_map};
ghost use Rattle.ethernet_arp.specs.Learning.{Act, Ticked, known, taught};
ghost use Rattle.ethernet_arp.specs.Table.{Knows, aged, host_of, in_table, is_of, moved_prefix};

use crate::mac::Mac;
use crate::sizes::{ARP_ENTRIES, ARP_TICKS};
use uip_wire::Addr;

/// A pair that was learnt, and the ticks since; at 2400 ticks it is forgotten.
#[derive(Clone, Copy, Debug, PartialEq, Eq)]
pub(crate) struct Entry {
    addr: Addr,
    mac: Mac,
    age: u16,
}

impl Entry {
    /// Returns an entry in which nothing is known.
    fn forgotten() -> Entry
        ensures { result.age ≡ ARP_TICKS }
    {
        Entry {
            addr: Addr([0; 4]),
            mac: Mac([0; 6]),
            age: ARP_TICKS,
        }
    }

    fn is_of(&self, addr: Addr) -> bool
        ensures { result ≡ is_of addr.0 self.now }
    {
        self.age < ARP_TICKS && self.addr == addr
    }

    /// Returns the entry after a tick.
    fn older(self) -> Entry
        ensures { result ≡ aged self }
    {
        let age = if self.age < ARP_TICKS {
            self.age + 1
        } else {
            self.age
        };
        Entry { age, ..self }
    }
}

/// A host on Ethernet, and the hardware addresses that it has learnt, the last first.
#[derive(Clone, Copy, Debug, PartialEq, Eq)]
pub struct Arp {
    pub own: Addr,
    pub mac: Mac,
    entries: [Entry; ARP_ENTRIES],
}

impl Arp {
    /// Returns a host that has learnt nothing.
    pub fn new(own: Addr, mac: Mac) -> Arp
        ensures host { host_of result ≡ record { addr = own.0; mac = mac.0 } }
        ensures knows { Knows result [] }
    {
        Arp {
            own,
            mac,
            entries: [Entry::forgotten(); ARP_ENTRIES],
        }
    }

    /// Learns the hardware address of an IP address.
    pub fn learn(&mut self, addr: Addr, mac: Mac)
        ensures host { host_of self.new ≡ host_of self.old }
        ensures table { in_table self.new addr.0 ≡ Some mac.0 }
        ensures knows { (act : Act) (acts : List Act)
            → taught act ≡ Some (record { addr = addr.0; mac = mac.0 })
            → Knows self.old acts → Knows self.new (acts ++ act ∷ []) }
    {
        let place = place_of(&self.entries, addr).min(ARP_ENTRIES - 1);
        put_prefix(&mut self.entries, place, Entry { addr, mac, age: 0 });
    }

    /// Counts a tick.
    pub fn tick(&mut self)
        ensures host { host_of self.new ≡ host_of self.old }
        ensures knows { (acts : List Act) → Knows self.old acts → Knows self.new (acts ++ Ticked ∷ []) }
    {
        grow_older(&mut self.entries);
    }

    /// Takes over what another host has learnt, and nothing else.
    pub(crate) fn learn_all(&mut self, other: &Arp)
        ensures host { host_of self.new ≡ host_of self.old }
        ensures knows { self.new.entries ≡ other.now.entries }
    {
        self.entries = other.entries;
    }

    /// Returns the hardware address of an IP address, if it is known.
    pub fn known(&self, addr: Addr) -> Option<Mac>
        ensures table { option_map (λ m. m.0) result ≡ in_table self.now addr.0 }
        ensures known { (acts : List Act) → Knows self.now acts → option_map (λ m. m.0) result ≡ known acts addr.0 }
    {
        let place = place_of(&self.entries, addr);
        if place < ARP_ENTRIES {
            Some(self.entries[place].mac)
        } else {
            None
        }
    }
}

/// Returns the index of the entry of an address, or the number of entries.
fn place_of(entries: &[Entry], addr: Addr) -> usize
    ensures { result ≡ position_or_len (λ e. is_of addr.0 e) entries.now }
{
    for (at, entry) in entries.iter().enumerate() {
        if entry.is_of(addr) {
            return at;
        }
    }
    entries.len()
}

/// Puts an entry first, in place of that at an index.
fn put_prefix(entries: &mut [Entry; ARP_ENTRIES], place: usize, entry: Entry)
    requires { place < ARP_ENTRIES }
    ensures { entries.new ≡ moved_prefix entry place entries.old }
{
    let old = *entries;
    entries[1..place + 1].copy_from_slice(&old[..place]);
    entries[0] = entry;
}

/// Counts a tick for all entries.
fn grow_older(entries: &mut [Entry])
    ensures { entries.new ≡ map aged entries.old }
{
    for at in 0..entries.len() {
        entries[at] = entries[at].older();
    }
}
