//! The frame that is being received.

ghost use Rattle.std.specs.Prelude.{◌≡◌, ◌<◌, ◌≤◌, ◌+◌, ◌*◌, ◌&&◌, ◌++◌, [], List, ℕ, None, drop, length, nat_le, nat_lt, take};
ghost use Rattle.ethernet_arp.specs.Parts.{GoesOn, Holds, IsWaiting, TakesIn};

use crate::packets::put_prefix;
use crate::sizes::{LARGEST_FRAME, SMALLEST_FRAME};
use uip_wire::LARGEST_DATAGRAM;

/// What was received after the last whole frame: the first byte of a length, or a length and the bytes of a frame so far. For a frame that
/// is too long the bytes are counted, and only a prefix is stored.
#[derive(Drop)]
pub(crate) struct FramePart {
    area: [u8; LARGEST_FRAME],
    len: usize,
    size: usize,
    high: Option<u8>,
}

impl FramePart {
    /// Returns the part of a line from which nothing was read.
    pub fn new() -> FramePart
        ensures { Holds result [] }
    {
        FramePart {
            area: [0; LARGEST_FRAME],
            len: 0,
            size: 0,
            high: None,
        }
    }

    /// Returns whether a frame waits for more bytes.
    pub fn is_waiting(&self) -> bool
        ensures { result ≡ nat_lt self.now.len self.now.size }
    {
        self.len < self.size
    }

    /// Returns the bytes of the last frame.
    pub fn frame(&self) -> &[u8]
        requires { self.now.len ≤ LARGEST_FRAME }
        ensures { result.now ≡ take self.now.len self.now.area }
    {
        &self.area[..self.len]
    }

    /// Returns `count` bytes of the payload of the last frame.
    pub fn payload(&self, count: usize) -> &[u8]
        requires { count ≤ LARGEST_DATAGRAM }
        ensures { result.now ≡ take count (drop 14 self.now.area) }
    {
        &self.area[SMALLEST_FRAME..SMALLEST_FRAME + count]
    }

    /// Returns whether the length of the last frame is accepted.
    pub fn is_taken(&self) -> bool
        ensures { result ≡ (nat_le SMALLEST_FRAME self.now.len && nat_le self.now.len LARGEST_FRAME) }
    {
        self.len >= SMALLEST_FRAME && self.len <= LARGEST_FRAME
    }

    /// Feeds the bytes of a length, and returns how many they are.
    pub fn take_length(&mut self, bytes: &[u8]) -> usize
        requires some { 0 < length bytes.now }
        requires between { self.old.size ≤ self.old.len }
        ensures some { 0 < result }
        ensures within { result ≤ length bytes.now }
        ensures goes_on { GoesOn self.old self.new (take result bytes.now) }
    {
        if let Some(high) = self.high {
            self.begin(high, bytes[0]);
            return 1;
        }
        if bytes.len() == 1 {
            self.high = Some(bytes[0]);
            return 1;
        }
        self.begin(bytes[0], bytes[1]);
        2
    }

    /// Begins a frame of this length.
    fn begin(&mut self, high: u8, low: u8)
        ensures { self.new ≡ record { area = self.old.area; len = 0; size = 256 * high + low; high = None } }
    {
        self.size = usize::from(high) * 256 + usize::from(low);
        self.len = 0;
        self.high = None;
    }

    /// Feeds the bytes of the frame, and returns how many they are.
    pub fn take_frame(&mut self, bytes: &[u8]) -> usize
        requires some { 0 < length bytes.now }
        requires waiting { IsWaiting self.old }
        ensures some { 0 < result }
        ensures within { result ≤ length bytes.now }
        ensures takes { TakesIn self.old self.new (take result bytes.now) }
    {
        let count = bytes.len().min(self.size - self.len);
        keep(&mut self.area, self.len, &bytes[..count]);
        self.len += count;
        count
    }
}

/// Stores the bytes of a frame at an offset, as far as there is room.
fn keep(area: &mut [u8; LARGEST_FRAME], at: usize, bytes: &[u8])
    ensures { (frame : List ℕ) → length frame ≡ at → take at area.old ≡ take LARGEST_FRAME frame
        → take (at + length bytes.now) area.new ≡ take LARGEST_FRAME (frame ++ bytes.now) }
{
    if at < LARGEST_FRAME {
        let (_, room) = area.split_at_mut(at);
        let count = bytes.len().min(room.len());
        put_prefix(room, &bytes[..count]);
    }
}
