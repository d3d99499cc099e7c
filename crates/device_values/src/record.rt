//! The record of a call: a copy of what it shows, taken once, so that a retransmission has the same bytes.

ghost use Rattle.std.specs.Prelude.{◌≡◌, ◌≤◌, ◌+◌, drop, length, take};
ghost use Rattle.generators.specs.Prelude.{capture_of, capture_text};
ghost use Rattle.device_values.specs.Spellings.{spelled};
ghost use Rattle.device_values.specs.Words.{record_text};

use crate::kept::Kept;
use crate::spelling::{Spelling, spell};
use crate::values::{Values, kept_value};
use crate::word::Word;
use app_events::Now;
use generators::{
    CallRecord, PackedRows, counters_len, fill_counters, fill_number, fill_rows, number_len,
    pack_rows, rows_len,
};
use script_lang::Function;
use uip_wire::copy_bytes;

/// The record of a call of a device's script, in as little memory as it takes.
/// [add: function] A variant with what its text is made from, and its arms below.
#[derive(Drop)]
pub enum ValueCapture {
    /// No text.
    Empty,
    /// The hit count of a file, or the tick count.
    Number(u32),
    /// The twenty counters of the node.
    Net([u32; 20]),
    /// The connections that are not CLOSED.
    Rows(PackedRows),
    /// The bytes of a value at the call, and how they are escaped.
    Value { spelling: Spelling, kept: Kept },
}

/// Returns the record of a function of uIP.
fn uip_record(function: Function, hits: u32, now: &Now) -> ValueCapture
    ensures { record_text result ≡ capture_text (capture_of function hits now.now) }
{
    match function {
        Function::FileStats => ValueCapture::Number(hits),
        Function::TcpConnections => ValueCapture::Rows(pack_rows(&now.rows)),
        Function::NetStats => ValueCapture::Net(now.net),
        Function::Ticks => ValueCapture::Number(now.ticks),
        Function::Unknown => ValueCapture::Empty,
    }
}

/// Returns the length of a value as it is escaped. It is not inlined, so that its area is no part of a caller's stack frame.
#[inline(never)]
fn value_len(spelling: Spelling, kept: &Kept) -> usize
    ensures length { result ≡ length (spelled spelling (take kept.now.len kept.now.bytes)) }
    ensures short { result ≤ 192 }
{
    spell(spelling, kept.text()).len()
}

/// Writes a part of a value as it is escaped. It is not inlined either.
#[inline(never)]
fn fill_value(spelling: Spelling, kept: &Kept, at: usize, out: &mut [u8])
    requires { at + length out.old ≤ length (spelled spelling (take kept.now.len kept.now.bytes)) }
    ensures { out.new ≡ take (length out.old) (drop at (spelled spelling (take kept.now.len kept.now.bytes))) }
{
    let text = spell(spelling, kept.text());
    let end = at + out.len();
    copy_bytes(out, &text.as_slice()[at..end]);
}

impl CallRecord for ValueCapture {
    ghost use Rattle.device_values.specs.Words.{record_text, word_call_text};
    ghost use Rattle.device_values.specs.Lemmas.Laws.{words_short, words_bytes};

    type Function = Word;

    type Own = Values;

    ghost output = { word_call_text };

    ghost text = { record_text };

    ghost own_numbers = { λ values. values.bytes };

    fn empty() -> ValueCapture {
        ValueCapture::Empty
    }

    fn take(function: Word, argument: &[u8], hits: u32, own: &Values, now: &Now) -> ValueCapture {
        match function {
            Word::Uip(function) => uip_record(function, hits, now),
            Word::Value(spelling) => ValueCapture::Value {
                spelling,
                kept: kept_value(own, argument),
            },
        }
    }

    fn text_len(&self) -> usize {
        match self {
            ValueCapture::Empty => 0,
            ValueCapture::Number(number) => number_len(*number),
            ValueCapture::Net(counters) => counters_len(counters),
            ValueCapture::Rows(rows) => rows_len(rows),
            ValueCapture::Value { spelling, kept } => value_len(*spelling, kept),
        }
    }

    fn fill_at(&self, at: usize, out: &mut [u8]) {
        match self {
            ValueCapture::Empty => {}
            ValueCapture::Number(number) => fill_number(*number, at, out),
            ValueCapture::Net(counters) => fill_counters(counters, at, out),
            ValueCapture::Rows(rows) => fill_rows(rows, at, out),
            ValueCapture::Value { spelling, kept } => fill_value(*spelling, kept, at, out),
        }
    }

    ghost short = { words_short };

    ghost bytes = { words_bytes };
}
