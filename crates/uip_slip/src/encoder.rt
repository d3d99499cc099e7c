//! The encoder.

ghost use Rattle.std.specs.Prelude.{◌≡◌, ◌≤◌, length};
ghost use Rattle.uip_edge.specs.Prelude.{sink_view, Writes};
ghost use Rattle.uip_slip.specs.Text.{slip_text};

use crate::marks::{END, ESC};
use crate::text_area::TextArea;
use uip_edge::{Failed, Sink};
use uip_wire::LARGEST_DATAGRAM;

/// Returns the length of the SLIP text of a datagram, in bytes.
pub fn encoded_len(datagram: &[u8]) -> usize
    requires { length datagram.now ≤ LARGEST_DATAGRAM }
    ensures { result ≡ length (slip_text datagram.now) }
{
    let mut len = 2;
    for byte in datagram {
        len += if *byte == END || *byte == ESC { 2 } else { 1 };
    }
    len
}

/// An encoder with its own text area, so that each datagram is written in one piece.
#[derive(Drop)]
pub struct Encoder {
    text: TextArea,
}

impl Encoder {
    pub fn new() -> Encoder {
        Encoder {
            text: TextArea::new(),
        }
    }

    /// Writes the text of a datagram: in one piece, if the datagram has at most 1500 bytes. On failure a prefix of the text was written.
    #[inline(always)]
    pub fn encode<K: Sink>(&mut self, datagram: &[u8], sink: &mut K) -> Result<(), Failed>
        ensures { Writes (sink_view K.Sink sink.old) (sink_view K.Sink sink.new) result (slip_text datagram.now) }
    {
        encode_over(&mut self.text, datagram, sink)
    }
}

/// Writes the text of one datagram, as an encoder does.
#[inline(always)]
pub fn encode<K: Sink>(datagram: &[u8], sink: &mut K) -> Result<(), Failed>
    ensures { Writes (sink_view K.Sink sink.old) (sink_view K.Sink sink.new) result (slip_text datagram.now) }
{
    Encoder::new().encode(datagram, sink)
}

/// Writes the text of a datagram through a text area.
#[inline(always)]
fn encode_over<K: Sink>(text: &mut TextArea, datagram: &[u8], sink: &mut K) -> Result<(), Failed>
    ensures { Writes (sink_view K.Sink sink.old) (sink_view K.Sink sink.new) result (slip_text datagram.now) }
{
    text.clear();
    text.push(END);
    let mut rest = datagram;
    while rest.len() > LARGEST_DATAGRAM {
        let (part, others) = rest.split_at(LARGEST_DATAGRAM);
        text.put_escaped(part);
        sink.write_whole(text.bytes())?;
        text.clear();
        rest = others;
    }
    text.put_escaped(rest);
    text.push(END);
    sink.write_whole(text.bytes())
}

ghost use Rattle.std.specs.Prelude.{◌<◌, List, ℕ, [], ◌∷◌};
ghost use Rattle.uip_slip.specs.Frames.{frames, Datagram};

/// Decoding the text of a datagram gives that datagram and nothing else.
pub fn text_is_one_frame()
    ensures { (datagram : List ℕ) → 0 < length datagram → length datagram ≤ LARGEST_DATAGRAM
        → frames (slip_text datagram) ≡ Datagram datagram ∷ [] }
{}
