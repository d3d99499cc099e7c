ghost use Rattle.std.specs.Borrow.{sem};
ghost use Rattle.std.specs.Prelude.{◌≡◌, ◌≤◌, ◌+◌, ◌++◌, length, drop, replicate, slice_range, IfOk};
ghost use Rattle.packet_buffer.specs.Buffer.{HasSize, datagram_in};
ghost use Rattle.packet_buffer.specs.Lending.{LendsArea, LendsPart};
ghost use Rattle.uip_edge.specs.declared.no_memory.NoMemory.{NoMemory};

use std::alloc::Global;
use std::marker::Model;
use uip_edge::NoMemory;
use uip_wire::{LARGEST_DATAGRAM, copy_bytes};

/// The smallest area, in bytes: it holds a SYN with its option, the largest segment that is sent without text.
pub const LEAST_AREA: usize = 44;

/// An area of 44 to 1500 bytes, and the length of the datagram at its start.
#[derive(Drop)]
pub struct Packet {
    /// The bytes of the datagram, and after them what was there before.
    pub area: Vec<u8>,
    /// The length of the current datagram, in bytes.
    pub len: usize,
}

impl Model for Packet {
    ghost use Rattle.std.specs.Prelude.{◌≤◌, length};
    ghost use Rattle.packet_buffer.specs.Buffer.{Buffer, HasSize};

    ghost Value = { Buffer };

    ghost view = { λ p. record { area = p.area.items; len = p.len } };

    ghost invariant = { λ p. HasSize (length p.area.items) × (p.len ≤ length p.area.items) };
}

impl Packet {
    /// Allocates an area of `size` zero bytes, 44 to 1500, with no datagram in it.
    pub fn new(alloc: Global, size: usize) -> Result<Packet, NoMemory>
        requires least { LEAST_AREA ≤ size }
        requires most { size ≤ LARGEST_DATAGRAM }
        ensures { IfOk result (λ p. p ≡ record { area = replicate size 0; len = 0 }) }
    {
        match vec![in alloc; 0u8; size] {
            Ok(area) => Ok(Packet { area, len: 0 }),
            Err(_) => Err(NoMemory),
        }
    }

    /// Returns the size of the area, in bytes.
    pub fn size(&self) -> usize
        ensures exact { result ≡ length self.now.area }
        ensures bounds { HasSize result }
    {
        self.area.len()
    }

    /// Returns the current datagram.
    pub fn bytes(&self) -> &[u8]
        ensures { result.now ≡ datagram_in self.now }
    {
        &self.area[..self.len]
    }

    /// Copies a datagram to the start. The bytes after it are unchanged.
    pub fn load(&mut self, datagram: &[u8])
        requires { length datagram.now ≤ length self.old.area }
        ensures { self.new ≡ record { area = datagram.now ++ drop (length datagram.now) self.old.area; len = length datagram.now } }
    {
        copy_prefix(&mut self.area, datagram);
        self.len = datagram.len();
    }

    /// Sets the length of the current datagram. The area is unchanged.
    pub fn set_len(&mut self, len: usize)
        requires { len ≤ length self.old.area }
        ensures { self.new ≡ record self.old { len = len } }
    {
        self.len = len;
    }

    /// Borrows `len` bytes of the area from offset `at` on, for writing. All else is unchanged.
    pub fn part_mut(&mut self, at: usize, len: usize) -> &mut [u8]
        requires { at + len ≤ length self.old.area }
        ensures* writes_back { sem 𝓛 (LendsPart self.entry at result) }
        ensures value { result.now ≡ slice_range self.old.area at (at + len) }
    {
        self.area.slice_mut(at..at + len)
    }

    /// Borrows the whole area for writing. The length of the datagram is unchanged.
    pub fn area_mut(&mut self) -> &mut [u8]
        ensures* writes_back { sem 𝓛 (LendsArea self.entry result) }
        ensures value { result.now ≡ self.old.area }
        ensures size { HasSize (length self.old.area) }
    {
        self.area.as_mut_slice()
    }
}

/// Copies to the start of a slice.
fn copy_prefix(area: &mut [u8], datagram: &[u8])
    requires { length datagram.now ≤ length area.old }
    ensures { area.new ≡ datagram.now ++ drop (length datagram.now) area.old }
{
    copy_bytes(&mut area[..datagram.len()], datagram);
}
