//! `slip`: a capture file to a serial line.

ghost use Rattle.trace.specs.Prelude.{Converts, IsFoundSoon};
ghost use Rattle.uip_edge.specs.Prelude.{line_view};

use crate::line_loop::read_line;
use crate::reader::{Reader, Stop};
use crate::slip_end::SlipEnd;
use uip_edge::{Link, ServeEnd, Sink};

/// Reads a capture file and writes its datagrams as a serial line. Consumes at most `items` items.
#[inline(never)]
pub fn slip<L: Link, K: Sink>(link: &mut L, sink: &mut K, items: u64) -> SlipEnd
    ensures converts { Converts items
        (line_view L.Link K.Sink link.old sink.old)
        (line_view L.Link K.Sink link.new sink.new) result }
    // A fault is reported at the read of the link that has it.
    ensures soon { IsFoundSoon
        (line_view L.Link K.Sink link.old sink.old)
        (line_view L.Link K.Sink link.new sink.new) result }
{
    let mut reader = Reader::new();
    match read_line(&mut reader, link, sink, items) {
        Ok(ServeEnd::End) => reader.end(),
        Ok(ServeEnd::LinkFault) => SlipEnd::LinkFault,
        Ok(ServeEnd::Budget) => SlipEnd::Budget,
        Ok(ServeEnd::WriteFault) => SlipEnd::WriteFault,
        Err(Stop::WriteFault) => SlipEnd::WriteFault,
        Err(Stop::Bad(why)) => reader.bad(why),
    }
}
