//! Writes the page of a target as a node with an empty history sends it.

ghost use Rattle.std.specs.Prelude.{◌≡◌, ◌++◌, List, ℕ, codes, length};
ghost use Rattle.file_tree.specs.Prelude.{files_of};
ghost use Rattle.web_pages.specs.Prelude.{wanted, request_for, zero_snapshot, zero_page, zero_reply};
ghost use Rattle.httpd.specs.Reception.{ReceivesTarget};
ghost use Rattle.httpd.specs.Looking.{SpanFits, span_text};
ghost use Rattle.httpd.specs.Places.{IsFound};
ghost use Rattle.generators.specs.Prelude.{capture_text};
ghost use Rattle.httpd.specs.Reply.{found_file};
ghost use Rattle.httpd.specs.Zero.{IsAsked};
ghost use Rattle.uip_edge.specs.Prelude.{Writes, sink_view};

use crate::next_span::look;
use crate::request::{Received, file_asked, receive_target};
use crate::span::{Span, span_len, write_span};
use crate::texts::LONGEST_TEXT;
use crate::thread::Thread;
use app_events::{Now, RowList};
use arrayvec::ArrayVec;
use file_tree::{FileId, Site};
use generators::{Capture, take};
use protosocket::{LineIn, Stops};
use script_lang::Function;
use uip_edge::{Failed, Sink};

/// Writes the page of the request `GET `, the target and a line feed. Each call in it has the zero record of its kind: no hits, no ticks,
/// counters at 0 and no connections. On failure a prefix of it was written.
pub fn page_zero<K: Sink>(site: &Site, target: &[u8], sink: &mut K) -> Result<(), Failed>
    ensures { Writes (sink_view K.Sink sink.old) (sink_view K.Sink sink.new) result (zero_page (files_of site.now) target.now) }
{
    match asked(site, target) {
        Some(found) => write_reply(site, found, sink),
        None => write_out(sink, b""),
    }
}

/// Returns the file that the request for a target selects; the outer `None` if it is no request for a file.
fn asked(site: &Site, target: &[u8]) -> Option<Option<FileId>>
    ensures { IsAsked (files_of site.now) (wanted (request_for target.now)) result }
{
    let mut line = LineIn::new(Stops::SpaceOrLine);
    match receive_target(&mut line, target) {
        Received::Target => ended(site, line),
        Received::Named => Some(file_asked(site, &line)),
        Received::Method => None,
        Received::Refused => None,
    }
}

/// The same for a target that ends with the line.
fn ended(site: &Site, mut line: LineIn) -> Option<Option<FileId>>
    ensures { (request : List ℕ) → ReceivesTarget line request → IsAsked (files_of site.now) (wanted (request ++ codes "\n")) result }
{
    match receive_target(&mut line, b"\n") {
        Received::Named => Some(file_asked(site, &line)),
        Received::Method | Received::Target | Received::Refused => None,
    }
}

/// Writes a piece.
fn write_out<K: Sink>(sink: &mut K, piece: &[u8]) -> Result<(), Failed>
    ensures { Writes (sink_view K.Sink sink.old) (sink_view K.Sink sink.new) result piece.now }
{
    sink.write_whole(piece)
}

/// Writes the reply of a file that was found, or of none.
fn write_reply<K: Sink>(site: &Site, found: Option<FileId>, sink: &mut K) -> Result<(), Failed>
    requires { IsFound (files_of site.now) found }
    ensures { Writes (sink_view K.Sink sink.old) (sink_view K.Sink sink.new) result
        (zero_reply (files_of site.now) (found_file (files_of site.now) found)) }
{
    let mut capture = Capture::Empty;
    let mut thread = Thread::Head { at: 0 };
    loop {
        let seen = look(site, found, &capture, thread);
        thread = seen.next;
        match seen.span {
            Span::End => return Ok(()),
            Span::Call { function, .. } => capture = take(function, 0, &zero_now()),
            _ => write_one_span(&seen.span, sink)?,
        }
    }
}

/// Writes what is left of a piece.
fn write_one_span<K: Sink>(span: &Span<Capture, Function>, sink: &mut K) -> Result<(), Failed>
    requires { SpanFits capture_text span.now }
    ensures { Writes (sink_view K.Sink sink.old) (sink_view K.Sink sink.new) result (span_text capture_text span.now) }
{
    if let Span::Bytes { world, send } = span {
        return write_out(sink, &world[send.run.at as usize..send.run.end as usize]);
    }
    let len = span_len(span);
    let mut room = [0; LONGEST_TEXT];
    write_prefix(span, &mut room[..len], sink)
}

/// Writes what is left of a piece through a buffer of its length.
fn write_prefix<K: Sink>(
    span: &Span<Capture, Function>,
    room: &mut [u8],
    sink: &mut K,
) -> Result<(), Failed>
    requires fits { SpanFits capture_text span.now }
    requires room { length room.old ≡ length (span_text capture_text span.now) }
    ensures { Writes (sink_view K.Sink sink.old) (sink_view K.Sink sink.new) result (span_text capture_text span.now) }
{
    write_span(span, room);
    write_out(sink, room)
}

/// Returns a snapshot with an empty history.
/// [add: counter] The length of the array.
fn zero_now() -> Now
    ensures { result ≡ zero_snapshot.now }
{
    Now {
        ticks: 0,
        net: [0; 20],
        rows: RowList {
            list: ArrayVec::new(),
        },
    }
}
