//! The bytes that a client received, as hexadecimal digits.

ghost use Rattle.std.specs.Prelude.{◌≡◌, ◌<◌, ◌*◌, ◌≤◌, length};
ghost use Rattle.hex.specs.Hex.{encode_lower};
ghost use Rattle.uip_edge.specs.Prelude.{HasCause};
ghost use Rattle.link_replay.specs.Prelude.{digits_or_dash, text_line, Wrote};

use uip_edge::{Failed, Sink};

/// How many bytes are converted to digits at once.
const BLOCK: usize = 64;

/// Writes the line of the bytes that a client received.
pub(crate) fn write_text_line<K: Sink>(bytes: &[u8], sink: &mut K) -> Result<(), Failed>
    ensures wrote { Wrote (K.written sink.old) (K.written sink.new) result (text_line bytes.now) }
    ensures cause { HasCause (K.faults sink.old) (K.faults sink.new) result }
{
    write_word(b"text ", sink)?;
    write_text(bytes, sink)?;
    write_word(b"\n", sink)
}

/// Writes a word.
pub(crate) fn write_word<K: Sink>(word: &[u8], sink: &mut K) -> Result<(), Failed>
    ensures wrote { Wrote (K.written sink.old) (K.written sink.new) result word.now }
    ensures cause { HasCause (K.faults sink.old) (K.faults sink.new) result }
{
    sink.write_whole(word)
}

/// Writes the digits of the bytes, or a dash if there are none.
fn write_text<K: Sink>(bytes: &[u8], sink: &mut K) -> Result<(), Failed>
    ensures wrote { Wrote (K.written sink.old) (K.written sink.new) result (digits_or_dash bytes.now) }
    ensures cause { HasCause (K.faults sink.old) (K.faults sink.new) result }
{
    if bytes.is_empty() {
        return write_word(b"-", sink);
    }
    write_digits(bytes, sink)
}

/// Writes the digits of the bytes, block by block.
fn write_digits<K: Sink>(bytes: &[u8], sink: &mut K) -> Result<(), Failed>
    ensures wrote { Wrote (K.written sink.old) (K.written sink.new) result (encode_lower bytes.now) }
    ensures cause { HasCause (K.faults sink.old) (K.faults sink.new) result }
{
    let mut rest = bytes;
    while rest.len() > BLOCK {
        let (block, others) = rest.split_at(BLOCK);
        write_block(block, sink)?;
        rest = others;
    }
    write_block(rest, sink)
}

/// Writes the digits of a block.
fn write_block<K: Sink>(block: &[u8], sink: &mut K) -> Result<(), Failed>
    requires { length block.now ≤ 64 }
    ensures wrote { Wrote (K.written sink.old) (K.written sink.new) result (encode_lower block.now) }
    ensures cause { HasCause (K.faults sink.old) (K.faults sink.new) result }
{
    let mut room = [0; 2 * BLOCK];
    write_by_room(block, &mut room[..2 * block.len()], sink)
}

/// Writes the digits of a block, through a buffer of their length.
fn write_by_room<K: Sink>(block: &[u8], room: &mut [u8], sink: &mut K) -> Result<(), Failed>
    requires { length room.old ≡ 2 * length block.now }
    ensures wrote { Wrote (K.written sink.old) (K.written sink.new) result (encode_lower block.now) }
    ensures cause { HasCause (K.faults sink.old) (K.faults sink.new) result }
{
    let _fits = hex::encode_to_slice(block, room);
    sink.write_whole(room)
}
