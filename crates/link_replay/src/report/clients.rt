//! The lines of the clients.

ghost use Rattle.std.specs.Prelude.{map};
ghost use Rattle.uip_edge.specs.Prelude.{HasCause};
ghost use Rattle.text_buffer.specs.Prelude.{word_if};
ghost use Rattle.link_replay.specs.Prelude.{lines_of_client, numbered_texts, text_line, code_side_shown, Wrote};

use crate::report::client_lines::client_line;
use crate::report::hex_text::{write_text_line, write_word};
use crate::world::side::Side;
use uip_edge::{Failed, Sink};

/// Writes the lines of each client.
pub(crate) fn write_clients<K: Sink>(show: bool, sides: &[Side], sink: &mut K) -> Result<(), Failed>
    ensures wrote { Wrote (K.written sink.old) (K.written sink.new) result
        (numbered_texts (lines_of_client show) 1 (map code_side_shown sides.now)) }
    ensures cause { HasCause (K.faults sink.old) (K.faults sink.new) result }
{
    for (place, side) in sides.iter().enumerate() {
        write_client(show, place + 1, side, sink)?;
    }
    Ok(())
}

/// Writes the line of the client with this number, and if all is shown the bytes that it received.
fn write_client<K: Sink>(show: bool, number: usize, side: &Side, sink: &mut K) -> Result<(), Failed>
    ensures wrote { Wrote (K.written sink.old) (K.written sink.new) result (lines_of_client show number (code_side_shown side.now)) }
    ensures cause { HasCause (K.faults sink.old) (K.faults sink.new) result }
{
    write_word(client_line(show, number, side).bytes(), sink)?;
    write_received(show, &side.received, sink)
}

/// Writes the bytes that a client received, if all is shown.
fn write_received<K: Sink>(show: bool, received: &[u8], sink: &mut K) -> Result<(), Failed>
    ensures wrote { Wrote (K.written sink.old) (K.written sink.new) result (word_if show (text_line received.now)) }
    ensures cause { HasCause (K.faults sink.old) (K.faults sink.new) result }
{
    if show {
        return write_text_line(received, sink);
    }
    Ok(())
}
