//! Generates a reply span by span: fills segments, passes over acknowledged text, and decides what to send.

ghost use Rattle.std.specs.Prelude.{◌≡◌, ◌==◌, ◌≤◌, ◌-◌, length, take, MatchOption, if◌then◌else◌};
ghost use Rattle.file_tree.specs.Prelude.{files_of};
ghost use Rattle.generators.specs.Prelude.{script_functions};
ghost use Rattle.httpd.specs.Reply.{left_from, reply_by};
ghost use Rattle.httpd.specs.Places.{Fits, IsFound};
ghost use Rattle.httpd.specs.Kept.{KeepsOn};
ghost use Rattle.httpd.specs.Looking.{IsPast};
ghost use Rattle.httpd.specs.Transmission.{IsDueReply, IsNotDue, left_text, left_whole, want_left};

use crate::next_span::look;
use crate::span::{Span, span_len, write_at};
use crate::thread::{Thread, moved};
use app_events::Want;
use file_tree::{FileId, Image, SiteOf};
use generators::CallRecord;
use web_pages::LARGEST_SEGMENT;

/// Writes a prefix of the text that is left, as much as `out` holds.
pub(crate) fn fill_reply<B: Image, R: CallRecord>(
    site: &SiteOf<B>,
    found: Option<FileId>,
    capture: &R,
    thread: Thread,
    out: &mut [u8],
)
    requires found { IsFound (files_of site.now) found }
    requires fits { Fits (reply_by (script_functions R.Function.calling R.output) R.text site.now found capture.now) thread }
    requires enough { let reply = reply_by (script_functions R.Function.calling R.output) R.text site.now found capture.now in
        length out.old ≤ length (left_text reply thread) }
    ensures { let reply = reply_by (script_functions R.Function.calling R.output) R.text site.now found capture.now in
        out.new ≡ take (length out.old) (left_text reply thread) }
{
    let mut place = thread;
    let mut from = 0;
    while from < out.len() {
        let seen = look(site, found, capture, place);
        let count = span_len(&seen.span).min(out.len() - from);
        write_at(&seen.span, out, from, count);
        from += count;
        place = seen.next;
    }
}

/// Returns the thread after `count` bytes of the text that is left.
pub(crate) fn acked_reply<B: Image, R: CallRecord>(
    site: &SiteOf<B>,
    found: Option<FileId>,
    capture: &R,
    thread: Thread,
    count: usize,
) -> Thread
    requires found { IsFound (files_of site.now) found }
    requires fits { Fits (reply_by (script_functions R.Function.calling R.output) R.text site.now found capture.now) thread }
    requires enough { let reply = reply_by (script_functions R.Function.calling R.output) R.text site.now found capture.now in
        count ≤ length (left_text reply thread) }
    ensures fits { Fits (reply_by (script_functions R.Function.calling R.output) R.text site.now found capture.now) result }
    ensures kept { KeepsOn (reply_by (script_functions R.Function.calling R.output) R.text site.now found capture.now) thread result }
    ensures history { let reply = reply_by (script_functions R.Function.calling R.output) R.text site.now found capture.now in
        IsPast reply.functions reply.files count (left_from reply thread) (left_from reply result) }
{
    let mut place = thread;
    let mut left = count;
    while left > 0 {
        let seen = look(site, found, capture, place);
        let len = span_len(&seen.span);
        if left < len {
            return moved(seen.here, left as u32);
        }
        left -= len;
        place = seen.next;
    }
    place
}

/// Returns what to send, by the text that is left and whether it ends the page.
pub(crate) fn want_reply<B: Image, R: CallRecord>(
    site: &SiteOf<B>,
    found: Option<FileId>,
    capture: &R,
    thread: Thread,
) -> Want
    requires found { IsFound (files_of site.now) found }
    requires fits { Fits (reply_by (script_functions R.Function.calling R.output) R.text site.now found capture.now) thread }
    ensures { let reply = reply_by (script_functions R.Function.calling R.output) R.text site.now found capture.now in
        result ≡ want_left (left_text reply thread) (left_whole reply thread) }
{
    let mut place = thread;
    let mut ready = 0;
    while ready < LARGEST_SEGMENT {
        if let Thread::End = place {
            return sent_or(Want::Close, ready);
        }
        let seen = look(site, found, capture, place);
        match seen.span {
            Span::Call { .. } => return sent_or(Want::Nothing, ready),
            Span::End => return sent_or(Want::Close, ready),
            _ => {}
        }
        ready += span_len(&seen.span);
        place = seen.next;
    }
    Want::Send(LARGEST_SEGMENT)
}

/// Returns a request to send `ready` bytes, or the other request if `ready` is 0.
fn sent_or(other: Want, ready: usize) -> Want
    ensures { result ≡ (if ready == 0 then other else Want.Send ready) }
{
    if ready == 0 { other } else { Want::Send(ready) }
}

/// A call that is due: its record is to be taken.
#[derive(Clone, Copy)]
pub(crate) struct Due<'s, F> {
    pub function: F,
    pub argument: &'s [u8],
    /// The start of the text of its record.
    pub next: Thread,
}

/// Returns the call at the thread, if no text is left before it.
pub(crate) fn due_call<'s, B: Image, R: CallRecord>(
    site: &'s SiteOf<B>,
    found: Option<FileId>,
    capture: &R,
    thread: Thread,
) -> Option<Due<'s, R::Function>>
    requires found { IsFound (files_of site.now) found }
    requires fits { Fits (reply_by (script_functions R.Function.calling R.output) R.text site.now found capture.now) thread }
    ensures { let reply = reply_by (script_functions R.Function.calling R.output) R.text site.now found capture.now in
        MatchOption result (IsNotDue reply thread) (IsDueReply reply thread) }
{
    let mut place = thread;
    loop {
        let seen = look(site, found, capture, place);
        let len = span_len(&seen.span);
        if len > 0 {
            return None;
        }
        match seen.span {
            Span::Call { function, argument } => {
                return Some(Due {
                    function,
                    argument,
                    next: seen.next,
                });
            }
            Span::End => return None,
            _ => place = seen.next,
        }
    }
}
