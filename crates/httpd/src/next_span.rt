//! Finds the span of a reply at a given offset, and where the next span begins.

ghost use Rattle.std.specs.Prelude.{◌≡◌, ◌≤◌, ◌<◌, ◌+◌, ◌∷◌, [], true, drop, length, slice_range};
ghost use Rattle.file_tree.specs.Prelude.{files_of};
ghost use Rattle.generators.specs.Prelude.{script_functions};
ghost use Rattle.site_image.specs.declared.TheConstants.{LONGEST_IMAGE};
ghost use Rattle.site_image.specs.Prelude.{file_named};
ghost use Rattle.web_pages.specs.Prelude.{bytes_or, Plain, Made};
ghost use Rattle.httpd.specs.Reply.{body, body_from, found_file, is_scripted, left_from, reply_by};
ghost use Rattle.script_lang.specs.Prelude.{run_end};
ghost use Rattle.httpd.specs.Places.{Fits, IsBodyPlace, IsFound, IsInner};
ghost use Rattle.httpd.specs.Kept.{EndsCall, EndsInclude, KeepsAll, KeepsOn};
ghost use Rattle.httpd.specs.Looking.{IsSpan, Sees};

use crate::span::{Look, Span};
use crate::texts::{body_of, bytes_at, head_of, is_scripted, kind_of};
use crate::thread::Thread;
use crate::web::place_in;
use file_tree::{FileId, Image, SiteOf};
use generators::CallRecord;
use protosocket::SendOut;
use protothread::Run;
use script_lang::{Calls, PieceOf, next_piece_of, runs_past};
use web_pages::LARGEST_SEGMENT;

/// Returns the span at a thread. It is not inlined, since four calls of an application need it.
/// [add: piece] An arm, and a function that finds the next span of the piece.
#[inline(never)]
#[tactic(auto, using(crate::proofs::Seeing::keeps_same))]
pub(crate) fn look<'s, 'c, B: Image, R: CallRecord>(
    site: &'s SiteOf<B>,
    found: Option<FileId>,
    capture: &'c R,
    thread: Thread,
) -> Look<'s, 'c, R, R::Function>
    requires found { IsFound (files_of site.now) found }
    requires fits { Fits (reply_by (script_functions R.Function.calling R.output) R.text site.now found capture.now) thread }
    ensures sees { let reply = reply_by (script_functions R.Function.calling R.output) R.text site.now found capture.now in
        Sees R.text reply (left_from reply thread) result }
    ensures kept { KeepsOn (reply_by (script_functions R.Function.calling R.output) R.text site.now found capture.now) thread result.here }
{
    match thread {
        Thread::Head { at } => return look_head(site, found, capture, at),
        Thread::Kind { at } => return look_kind(site, found, capture, at),
        Thread::Body { at } => return look_body(site, found, capture, at),
        Thread::Inside { next, file, at } => {
            return look_inside(site, found, capture, next, file, at);
        }
        Thread::Making { next, at } => return look_making(site, found, capture, next, at),
        Thread::End => {}
    }
    look_end()
}

/// The span of the bytes from an offset on.
#[inline(always)]
fn rest_of<'s, 'c, R: CallRecord>(world: &'s [u8], at: u32) -> Span<'s, 'c, R, R::Function>
    requires within { at ≤ length world.now }
    requires short { length world.now ≤ LONGEST_IMAGE }
    ensures { IsSpan R.text result (drop at world.now) }
{
    part_of(world, at, world.len() as u32)
}

/// The span of a part of the bytes.
#[inline(always)]
fn part_of<'s, 'c, R: CallRecord>(
    world: &'s [u8],
    at: u32,
    end: u32,
) -> Span<'s, 'c, R, R::Function>
    requires ordered { at ≤ end }
    requires within { end ≤ length world.now }
    requires short { length world.now ≤ LONGEST_IMAGE }
    ensures { IsSpan R.text result (slice_range world.now at end) }
{
    let run = Run { at, end };
    Span::Bytes {
        world,
        send: SendOut { run },
    }
}

/// The span in the head.
#[inline(always)]
fn look_head<'s, 'c, B: Image, R: CallRecord>(
    site: &'s SiteOf<B>,
    found: Option<FileId>,
    capture: &'c R,
    at: u32,
) -> Look<'s, 'c, R, R::Function>
    requires found { IsFound (files_of site.now) found }
    requires fits { Fits (reply_by (script_functions R.Function.calling R.output) R.text site.now found capture.now) (Thread.Head at) }
    ensures sees { let reply = reply_by (script_functions R.Function.calling R.output) R.text site.now found capture.now in
        Sees R.text reply (left_from reply (Thread.Head at)) result }
    ensures here { result.here ≡ Thread.Head at }
{
    Look {
        span: rest_of(head_of(site, found), at),
        here: Thread::Head { at },
        next: Thread::Kind { at: 0 },
    }
}

/// The span in the line of the content type.
#[inline(always)]
fn look_kind<'s, 'c, B: Image, R: CallRecord>(
    site: &'s SiteOf<B>,
    found: Option<FileId>,
    capture: &'c R,
    at: u32,
) -> Look<'s, 'c, R, R::Function>
    requires found { IsFound (files_of site.now) found }
    requires fits { Fits (reply_by (script_functions R.Function.calling R.output) R.text site.now found capture.now) (Thread.Kind at) }
    ensures sees { let reply = reply_by (script_functions R.Function.calling R.output) R.text site.now found capture.now in
        Sees R.text reply (left_from reply (Thread.Kind at)) result }
    ensures here { result.here ≡ Thread.Kind at }
{
    Look {
        span: Span::Line {
            kind: kind_of(site, found),
            at,
        },
        here: Thread::Kind { at },
        next: Thread::Body { at: 0 },
    }
}

/// The span in the body.
fn look_body<'s, 'c, B: Image, R: CallRecord>(
    site: &'s SiteOf<B>,
    found: Option<FileId>,
    capture: &'c R,
    at: u32,
) -> Look<'s, 'c, R, R::Function>
    requires found { IsFound (files_of site.now) found }
    requires fits { Fits (reply_by (script_functions R.Function.calling R.output) R.text site.now found capture.now) (Thread.Body at) }
    ensures sees { let reply = reply_by (script_functions R.Function.calling R.output) R.text site.now found capture.now in
        Sees R.text reply (left_from reply (Thread.Body at)) result }
    ensures kept { KeepsAll (reply_by (script_functions R.Function.calling R.output) R.text site.now found capture.now) result.here }
{
    if is_scripted(site, found) {
        return look_script(site, found, capture, at);
    }
    Look {
        span: rest_of(body_of(site, found), at),
        here: Thread::Body { at },
        next: Thread::End,
    }
}

/// The span in a script.
fn look_script<'s, 'c, B: Image, R: CallRecord>(
    site: &'s SiteOf<B>,
    found: Option<FileId>,
    capture: &'c R,
    at: u32,
) -> Look<'s, 'c, R, R::Function>
    requires found { IsFound (files_of site.now) found }
    requires script { is_scripted (found_file (files_of site.now) found) ≡ true }
    requires fits { IsBodyPlace (reply_by (script_functions R.Function.calling R.output) R.text site.now found capture.now) at }
    ensures sees { let reply = reply_by (script_functions R.Function.calling R.output) R.text site.now found capture.now in
        Sees R.text reply (left_from reply (Thread.Body at)) result }
    ensures kept { KeepsAll (reply_by (script_functions R.Function.calling R.output) R.text site.now found capture.now) result.here }
{
    let script = body_of(site, found);
    let from = at as usize;
    if from < script.len() && runs_past(script, from, LARGEST_SEGMENT) {
        return look_run(site, found, capture, at);
    }
    look_piece(site, found, capture, at)
}

/// The span in a text run of a script that is longer than a segment: as much as a segment holds. This bounds the work of one look, however
/// long the run is.
#[inline(always)]
fn look_run<'s, 'c, B: Image, R: CallRecord>(
    site: &'s SiteOf<B>,
    found: Option<FileId>,
    capture: &'c R,
    at: u32,
) -> Look<'s, 'c, R, R::Function>
    requires found { IsFound (files_of site.now) found }
    requires script { is_scripted (found_file (files_of site.now) found) ≡ true }
    requires fits { IsBodyPlace (reply_by (script_functions R.Function.calling R.output) R.text site.now found capture.now) at }
    requires long { let reply = reply_by (script_functions R.Function.calling R.output) R.text site.now found capture.now in
        at + LARGEST_SEGMENT < run_end (body reply) at }
    ensures sees { let reply = reply_by (script_functions R.Function.calling R.output) R.text site.now found capture.now in
        Sees R.text reply (left_from reply (Thread.Body at)) result }
    ensures here { result.here ≡ Thread.Body at }
{
    let script = body_of(site, found);
    let end = at + LARGEST_SEGMENT as u32;
    Look {
        span: part_of(script, at, end),
        here: Thread::Body { at },
        next: Thread::Body { at: end },
    }
}

/// The span at a piece of a script.
fn look_piece<'s, 'c, B: Image, R: CallRecord>(
    site: &'s SiteOf<B>,
    found: Option<FileId>,
    capture: &'c R,
    at: u32,
) -> Look<'s, 'c, R, R::Function>
    requires found { IsFound (files_of site.now) found }
    requires script { is_scripted (found_file (files_of site.now) found) ≡ true }
    requires fits { IsBodyPlace (reply_by (script_functions R.Function.calling R.output) R.text site.now found capture.now) at }
    ensures sees { let reply = reply_by (script_functions R.Function.calling R.output) R.text site.now found capture.now in
        Sees R.text reply (left_from reply (Thread.Body at)) result }
    ensures kept { KeepsAll (reply_by (script_functions R.Function.calling R.output) R.text site.now found capture.now) result.here }
{
    let script = body_of(site, found);
    let Some(read) = next_piece_of::<R::Function>(script, at as usize) else {
        return look_end();
    };
    let next = read.next as u32;
    match read.piece {
        PieceOf::Text { len, .. } => Look {
            span: part_of(script, at, at + len as u32),
            here: Thread::Body { at },
            next: Thread::Body { at: next },
        },
        PieceOf::Include { at: from, len } => {
            look_include(site, found, capture, next, &script[from..from + len])
        }
        PieceOf::Call {
            function,
            at: from,
            len,
        } => look_call(
            site,
            found,
            capture,
            next,
            function,
            &script[from..from + len],
        ),
    }
}

/// The span at an include.
fn look_include<'s, 'c, B: Image, R: CallRecord>(
    site: &'s SiteOf<B>,
    found: Option<FileId>,
    capture: &'c R,
    next: u32,
    name: &[u8],
) -> Look<'s, 'c, R, R::Function>
    requires found { IsFound (files_of site.now) found }
    requires inner { IsInner (reply_by (script_functions R.Function.calling R.output) R.text site.now found capture.now) next }
    requires directive { EndsInclude (reply_by (script_functions R.Function.calling R.output) R.text site.now found capture.now)
        next name.now }
    ensures sees { let reply = reply_by (script_functions R.Function.calling R.output) R.text site.now found capture.now in
        Sees R.text reply (Plain (bytes_or [] (file_named reply.files name.now)) ∷ body_from reply next) result }
    ensures kept { KeepsAll (reply_by (script_functions R.Function.calling R.output) R.text site.now found capture.now) result.here }
{
    let Some(file) = place_in(site, name) else {
        return look_nothing(next);
    };
    look_inside(site, found, capture, next, file, 0)
}

/// The empty span of a piece without text.
fn look_nothing<'s, 'c, R: CallRecord>(next: u32) -> Look<'s, 'c, R, R::Function>
    ensures nothing { IsSpan R.text result.span [] }
    ensures here { result.here ≡ Thread.Body next }
    ensures next { result.next ≡ Thread.Body next }
{
    let run = Run { at: 0, end: 0 };
    Look {
        span: Span::Bytes {
            world: b"",
            send: SendOut { run },
        },
        here: Thread::Body { at: next },
        next: Thread::Body { at: next },
    }
}

/// The span in the bytes of an included file.
fn look_inside<'s, 'c, B: Image, R: CallRecord>(
    site: &'s SiteOf<B>,
    found: Option<FileId>,
    capture: &'c R,
    next: u32,
    file: FileId,
    at: u32,
) -> Look<'s, 'c, R, R::Function>
    requires found { IsFound (files_of site.now) found }
    requires fits { let reply = reply_by (script_functions R.Function.calling R.output) R.text site.now found capture.now in
        Fits reply (Thread.Inside next file at) }
    ensures sees { let reply = reply_by (script_functions R.Function.calling R.output) R.text site.now found capture.now in
        Sees R.text reply (left_from reply (Thread.Inside next file at)) result }
    ensures here { result.here ≡ Thread.Inside next file at }
{
    Look {
        span: rest_of(bytes_at(site, file), at),
        here: Thread::Inside { next, file, at },
        next: Thread::Body { at: next },
    }
}

/// The span at a call.
fn look_call<'s, 'c, B: Image, R: CallRecord>(
    site: &'s SiteOf<B>,
    found: Option<FileId>,
    capture: &'c R,
    next: u32,
    function: R::Function,
    argument: &'s [u8],
) -> Look<'s, 'c, R, R::Function>
    requires inner { IsInner (reply_by (script_functions R.Function.calling R.output) R.text site.now found capture.now) next }
    requires directive { EndsCall (reply_by (script_functions R.Function.calling R.output) R.text site.now found capture.now)
        next function argument.now }
    ensures sees { let reply = reply_by (script_functions R.Function.calling R.output) R.text site.now found capture.now in
        Sees R.text reply (Made function argument.now ∷ body_from reply next) result }
    ensures kept { KeepsAll (reply_by (script_functions R.Function.calling R.output) R.text site.now found capture.now) result.here }
{
    if !function.takes_capture() {
        return look_nothing(next);
    }
    Look {
        span: Span::Call { function, argument },
        here: Thread::Body { at: next },
        next: Thread::Making { next, at: 0 },
    }
}

/// The span in the text of a record.
fn look_making<'s, 'c, B: Image, R: CallRecord>(
    site: &'s SiteOf<B>,
    found: Option<FileId>,
    capture: &'c R,
    next: u32,
    at: u32,
) -> Look<'s, 'c, R, R::Function>
    requires { Fits (reply_by (script_functions R.Function.calling R.output) R.text site.now found capture.now) (Thread.Making next at) }
    ensures sees { let reply = reply_by (script_functions R.Function.calling R.output) R.text site.now found capture.now in
        Sees R.text reply (left_from reply (Thread.Making next at)) result }
    ensures here { result.here ≡ Thread.Making next at }
{
    let end = capture.text_len() as u32;
    Look {
        span: Span::Made { capture, at, end },
        here: Thread::Making { next, at },
        next: Thread::Body { at: next },
    }
}

/// The span at the end.
#[inline(always)]
fn look_end<'s, 'c, R: CallRecord>() -> Look<'s, 'c, R, R::Function>
    ensures span { result.span ≡ Span.End }
    ensures here { result.here ≡ Thread.End }
{
    Look {
        span: Span::End,
        here: Thread::End,
        next: Thread::End,
    }
}
