//! The text and what is appended to it.

use arrayvec::ArrayVec;
use itoa::Buffer;
use std::marker::Model;
use tcp_segment::{ACK, FIN, PSH, RST, SYN};
use uip_wire::Addr;

/// Text in a buffer of `ROOM` bytes, complete before it is written.
#[derive(Drop)]
pub struct Text<const ROOM: usize> {
    bytes: ArrayVec<u8, ROOM>,
}

impl<const ROOM: usize> Model for Text<ROOM> {
    ghost use Rattle.std.specs.Prelude.{List, ℕ};

    ghost Value = { List ℕ };

    ghost view = { λ text. text.bytes.items };
}

impl<const ROOM: usize> Text<ROOM> {
    ghost use Rattle.std.specs.Prelude.{◌≡◌, ◌+◌, ◌≤◌, ◌++◌, [], decimal, length};
    ghost use Rattle.uip_wire.specs.Addr.{quad_text};
    ghost use Rattle.tcp_segment.specs.Segments.{flag_letters};
    ghost use Rattle.text_buffer.specs.Words.{word_if};

    /// Returns the empty text.
    pub fn new() -> Text<ROOM>
        ensures { result ≡ [] }
    {
        Text {
            bytes: ArrayVec::new(),
        }
    }

    /// Returns the bytes so far.
    pub fn bytes(&self) -> &[u8]
        ensures { result.now ≡ self.now }
    {
        self.bytes.as_slice()
    }

    /// Returns the number of bytes.
    pub fn len(&self) -> usize
        ensures { result ≡ length self.now }
    {
        self.bytes.len()
    }

    /// Removes all bytes.
    pub fn clear(&mut self)
        ensures { self.new ≡ [] }
    {
        self.bytes.clear();
    }

    /// Appends a piece, for which there must be room.
    pub fn put(&mut self, piece: &[u8])
        requires room { length self.old + length piece.now ≤ ROOM }
        ensures text { self.new ≡ self.old ++ piece.now }
        ensures len { length self.new ≡ length self.old + length piece.now }
    {
        let _fits = self.bytes.try_extend_from_slice(piece);
    }

    /// Appends a piece if the flag is true.
    pub fn put_if(&mut self, is_shown: bool, piece: &[u8])
        requires room { length self.old + length piece.now ≤ ROOM }
        ensures text { self.new ≡ self.old ++ word_if is_shown piece.now }
        ensures len { length self.new ≤ length self.old + length piece.now }
    {
        if is_shown {
            self.put(piece);
        }
    }

    /// Appends a number in decimal digits, without leading zeros.
    pub fn put_number(&mut self, number: u64)
        requires room { length self.old + 20 ≤ ROOM }
        ensures text { self.new ≡ self.old ++ decimal number }
        ensures len { length self.new ≤ length self.old + 20 }
    {
        let mut digits = Buffer::new();
        self.put(digits.format(number).as_bytes());
    }

    /// Appends a number of up to 128 bits in decimal digits, without leading zeros.
    pub fn put_total(&mut self, total: u128)
        requires room { length self.old + 40 ≤ ROOM }
        ensures text { self.new ≡ self.old ++ decimal total }
        ensures len { length self.new ≤ length self.old + 40 }
    {
        let mut digits = Buffer::new();
        self.put(digits.format(total).as_bytes());
    }

    /// Appends a number from 0 to 255 in decimal digits, without leading zeros.
    pub fn put_byte(&mut self, number: u8)
        requires room { length self.old + 3 ≤ ROOM }
        ensures text { self.new ≡ self.old ++ decimal number }
        ensures len { length self.new ≤ length self.old + 3 }
    {
        let mut digits = Buffer::new();
        self.put(digits.format(number).as_bytes());
    }

    /// Appends an address as a dotted quad.
    pub fn put_quad(&mut self, address: Addr)
        requires room { length self.old + 15 ≤ ROOM }
        ensures text { self.new ≡ self.old ++ quad_text address.0 }
        ensures len { length self.new ≤ length self.old + 15 }
    {
        let [first, second, third, fourth] = address.0;
        self.put_byte(first);
        self.put(b".");
        self.put_byte(second);
        self.put(b".");
        self.put_byte(third);
        self.put(b".");
        self.put_byte(fourth);
    }

    /// Appends the letters of the flags that are set: S, A, P, F and R.
    pub fn put_flags(&mut self, flags: u8)
        requires room { length self.old + 5 ≤ ROOM }
        ensures text { self.new ≡ self.old ++ flag_letters flags }
        ensures len { length self.new ≤ length self.old + 5 }
    {
        self.put_if(flags / SYN % 2 == 1, b"S");
        self.put_if(flags / ACK % 2 == 1, b"A");
        self.put_if(flags / PSH % 2 == 1, b"P");
        self.put_if(flags / FIN % 2 == 1, b"F");
        self.put_if(flags / RST % 2 == 1, b"R");
    }
}
