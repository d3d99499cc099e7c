//! What is left of one piece of a reply.

ghost use Rattle.std.specs.Prelude.{◌≡◌, ◌+◌, ◌≤◌, ◌++◌, length, take, drop};
ghost use Rattle.site_image.specs.declared.TheConstants.{LONGEST_IMAGE, LONGEST_KIND};
ghost use Rattle.web_pages.specs.Prelude.{kind_line};
ghost use Rattle.httpd.specs.Looking.{SpanFits, span_text};

use crate::texts::line_of;
use crate::thread::Thread;
use generators::CallRecord;
use protosocket::SendOut;
use protothread::{Run, Says};
use site_image::KIND_LINE_LEN;

/// What is left of a piece.
#[derive(Drop)]
pub(crate) enum Span<'s, 'c, R, F> {
    /// Bytes of the site, or of a fixed text.
    Bytes {
        world: &'s [u8],
        send: SendOut,
    },
    /// The line of a content type, from offset `at` on.
    Line {
        kind: &'s [u8],
        at: u32,
    },
    /// The text of a record, from offset `at` on.
    Made {
        capture: &'c R,
        at: u32,
        /// The length of the text in bytes.
        end: u32,
    },
    /// A call whose record is not taken yet.
    Call {
        function: F,
        argument: &'s [u8],
    },
    /// The end of the reply.
    End,
}

/// The span at a thread.
#[derive(Drop)]
pub(crate) struct Look<'s, 'c, R, F> {
    pub span: Span<'s, 'c, R, F>,
    /// The same thread, moved into the piece if it is a piece of text.
    pub here: Thread,
    /// The start of the next piece; after a call, the start of the text of its record.
    pub next: Thread,
}

/// Returns the number of bytes that are left.
pub(crate) fn span_len<R: CallRecord>(span: &Span<R, R::Function>) -> usize
    requires { SpanFits R.text span.now }
    ensures length { result ≡ length (span_text R.text span.now) }
    ensures bound { result ≤ LONGEST_IMAGE }
{
    match span {
        Span::Bytes { world, send } => send.left(world),
        Span::Line { kind, at } => kind.len() + KIND_LINE_LEN - *at as usize,
        Span::Made { at, end, .. } => (*end - *at) as usize,
        Span::Call { .. } => 0,
        Span::End => 0,
    }
}

/// Writes a prefix of what is left, as much as `out` holds.
pub(crate) fn write_span<R: CallRecord>(span: &Span<R, R::Function>, out: &mut [u8])
    requires fits { SpanFits R.text span.now }
    requires enough { length out.old ≤ length (span_text R.text span.now) }
    ensures { out.new ≡ take (length out.old) (span_text R.text span.now) }
{
    match span {
        Span::Bytes { world, send } => send.fill(world, out),
        Span::Line { kind, at } => write_line(kind, *at, out),
        Span::Made { capture, at, .. } => capture.fill_at(*at as usize, out),
        Span::Call { .. } => {}
        Span::End => {}
    }
}

/// Writes the line of a content type from offset `at` on.
fn write_line(kind: &[u8], at: u32, out: &mut [u8])
    requires short { length kind.now ≤ LONGEST_KIND }
    requires enough { at + length out.old ≤ length (kind_line kind.now) }
    ensures { out.new ≡ take (length out.old) (drop at (kind_line kind.now)) }
{
    let line = line_of(kind);
    let end = line.len() as u32;
    let send = SendOut {
        run: Run { at, end },
    };
    send.fill(line.as_slice(), out);
}

/// Writes a prefix of what is left at an offset of the buffer.
pub(crate) fn write_at<R: CallRecord>(
    span: &Span<R, R::Function>,
    out: &mut [u8],
    from: usize,
    count: usize,
)
    requires fits { SpanFits R.text span.now }
    requires enough { count ≤ length (span_text R.text span.now) }
    requires room { from + count ≤ length out.old }
    ensures { out.new ≡ take from out.old ++ take count (span_text R.text span.now) ++ drop (from + count) out.old }
{
    write_span(span, &mut out[from..from + count]);
}
