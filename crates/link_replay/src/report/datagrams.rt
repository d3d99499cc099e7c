//! The lines of the datagrams.

ghost use Rattle.std.specs.Prelude.{OnOk, true};
ghost use Rattle.uip_edge.specs.Prelude.{HasCause};
ghost use Rattle.link_replay.specs.Prelude.{OfDatagram, OfLink, link_of, line_of_datagram, numbered_texts, AppendsShown, Wrote};
ghost use Rattle.text_buffer.specs.Prelude.{word_if};

use crate::report::datagram_kind::kind_of;
use crate::report::datagram_line::datagram_line;
use crate::report::hex_text::write_word;
use crate::world::sent::Sent;
use crate::world::side::Side;
use uip_edge::{Failed, Sink};
use uip_wire::Addr;

/// Writes the line of each datagram, if all is shown.
pub(crate) fn write_shown<K: Sink>(
    show: bool,
    addr: Addr,
    sides: &[Side],
    sent: &[Sent],
    sink: &mut K,
) -> Result<(), Failed>
    ensures wrote { OfLink addr (link_of sides.now sent.now) (λ w. Wrote (K.written sink.old) (K.written sink.new) result
        (word_if show (numbered_texts line_of_datagram 1 w.sent))) }
    ensures some { OnOk result (AppendsShown show (K.written sink.old) (K.written sink.new)) }
    ensures cause { HasCause (K.faults sink.old) (K.faults sink.new) result }
{
    if !show {
        return Ok(());
    }
    for (place, datagram) in sent.iter().enumerate() {
        write_datagram(addr, sides, place + 1, datagram, sink)?;
    }
    Ok(())
}

/// Writes the line of the datagram with this number.
fn write_datagram<K: Sink>(
    addr: Addr,
    sides: &[Side],
    number: usize,
    sent: &Sent,
    sink: &mut K,
) -> Result<(), Failed>
    ensures wrote { OfDatagram addr sides.now sent.now
        (λ e. Wrote (K.written sink.old) (K.written sink.new) result (line_of_datagram number e)) }
    ensures some { OnOk result (AppendsShown true (K.written sink.old) (K.written sink.new)) }
    ensures cause { HasCause (K.faults sink.old) (K.faults sink.new) result }
{
    let line = datagram_line(number, sent, kind_of(addr, sides, sent));
    write_word(line.bytes(), sink)
}
