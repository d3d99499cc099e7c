//! `dump` and `pcap`: what is written of a serial line.

ghost use Rattle.std.specs.Prelude.{◌<◌, []};
ghost use Rattle.trace.specs.Prelude.{capture_file, dump_text, ReportsLine, text_after};
ghost use Rattle.uip_edge.specs.Prelude.{line_view};

use crate::form::Form;
use crate::line_loop::read_line;
use crate::record::HEADER;
use crate::watch::Watch;
use uip_edge::{Failed, Link, ServeEnd, Sink};

/// Writes a line of text for each frame of a serial line. Consumes at most `items` items.
#[inline(never)]
pub fn dump<L: Link, K: Sink>(link: &mut L, sink: &mut K, items: u64) -> ServeEnd
    ensures { ReportsLine dump_text items
        (line_view L.Link K.Sink link.old sink.old)
        (line_view L.Link K.Sink link.new sink.new) result }
{
    watch_line(Form::Dump, link, sink, items)
}

/// Writes a capture file of the datagrams of a serial line. Consumes at most `items` items.
#[inline(never)]
pub fn pcap<L: Link, K: Sink>(link: &mut L, sink: &mut K, items: u64) -> ServeEnd
    ensures { ReportsLine capture_file items
        (line_view L.Link K.Sink link.old sink.old)
        (line_view L.Link K.Sink link.new sink.new) result }
{
    match sink.write_whole(&HEADER) {
        Ok(()) => watch_line(Form::Capture, link, sink, items),
        Err(_) => ServeEnd::WriteFault,
    }
}

/// Consumes items of a line, at most `items`.
fn watch_line<L: Link, K: Sink>(form: Form, link: &mut L, sink: &mut K, items: u64) -> ServeEnd
    ensures { ReportsLine (text_after form []) items
        (line_view L.Link K.Sink link.old sink.old)
        (line_view L.Link K.Sink link.new sink.new) result }
{
    let mut watch = Watch::new(form);
    match read_line(&mut watch, link, sink, items) {
        Ok(end) => end,
        Err(Failed) => ServeEnd::WriteFault,
    }
}
