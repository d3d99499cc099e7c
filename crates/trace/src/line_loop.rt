//! The loop over a line, for any reader of its items.

ghost use Rattle.std.specs.Prelude.{◌≡◌, ◌<◌, ◌≤◌, ◌+◌, ◌^◌, ◌++◌, [], List, length, map, IfErr, OnOk};
ghost use Rattle.uip_edge.specs.Prelude.{line_view, sink_view};
ghost use Rattle.uip_edge.specs.declared.item.Item.{Item};
ghost use Rattle.uip_edge.specs.declared.item.Item.TheVariants.{Byte};
ghost use Rattle.trace.specs.LineReading.{ReadsLine, StopsAmong};

use crate::line_reader::LineReader;
use uip_edge::{Failed, Got, Link, ServeEnd, Sink};

/// The greatest number of bytes of one read of the link.
const BLOCK: usize = 4096;

/// Consumes bytes.
fn take_bytes<R: LineReader, K: Sink>(
    reader: &mut R,
    bytes: &[u8],
    sink: &mut K,
) -> Result<(), R::Stop>
    requires ready { R.ready reader.old }
    requires counted { R.counted reader.old + length bytes.now < 2 ^ 64 }
    ensures ready { OnOk result (R.ready reader.new) }
    ensures counted { OnOk result (R.counted reader.new ≤ R.counted reader.old + length bytes.now) }
    ensures took { OnOk result ((k : R.Config) (before : List Item) → R.took reader.old k before (K.written sink.old)
        → R.took reader.new k (before ++ map Byte bytes.now) (K.written sink.new)) }
    ensures calm { OnOk result (K.faults sink.new ≡ K.faults sink.old) }
    ensures stopped { IfErr result (λ stop. (k : R.Config) (before : List Item) → R.took reader.old k before (K.written sink.old)
        → StopsAmong R.LineReader k before bytes.now (K.faults sink.old) (sink_view K.Sink sink.new) reader.new stop) }
{
    let mut rest = bytes;
    while !rest.is_empty() {
        let count = reader.take_prefix(rest, sink)?;
        rest = &rest[count..];
    }
    Ok(())
}

/// Reads a line, at most `items` items of it. Returns why it ended, or why the reader stopped.
pub(crate) fn read_line<R: LineReader, L: Link, K: Sink>(
    reader: &mut R,
    link: &mut L,
    sink: &mut K,
    items: u64,
) -> Result<ServeEnd, R::Stop>
    requires ready { R.ready reader.old }
    requires counted { R.counted reader.old ≡ 0 }
    ensures { (k : R.Config) → R.took reader.old k [] (K.written sink.old) → ReadsLine R.LineReader k items
        (line_view L.Link K.Sink link.old sink.old)
        (line_view L.Link K.Sink link.new sink.new) reader.new result }
{
    let mut buf = [0; BLOCK];
    let mut left = items;
    while left > 0 {
        let room = left.min(BLOCK as u64) as usize;
        let block = &mut buf[..room];
        match link.next(block) {
            Err(Failed) => return Ok(ServeEnd::LinkFault),
            Ok(Got::End) => return Ok(ServeEnd::End),
            Ok(Got::Quiet) => {
                reader.silence();
                left -= 1;
            }
            Ok(Got::Bytes(count)) => {
                take_bytes(reader, &block[..count], sink)?;
                left -= count as u64;
            }
        }
    }
    Ok(ServeEnd::Budget)
}
