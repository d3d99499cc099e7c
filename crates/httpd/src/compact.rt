//! The web server on one connection, in less memory.

ghost use Rattle.std.specs.Prelude.{◌≡◌, ℕ, List, ◌+◌, ◌++◌, false, length, min, take};
ghost use Rattle.app_events.specs.Prelude.{AppState, IsRepresented, CanSupply, text_left};
ghost use Rattle.file_tree.specs.Prelude.{SiteContent, files_of};
ghost use Rattle.generators.specs.Prelude.{script_functions};
ghost use Rattle.web_pages.specs.Prelude.{wanted, NotYet, hits_by, web_spec_by, web_want_by};
ghost use Rattle.httpd.specs.Compact.{CompactRepresent, ReceivesWord, is_target_stage, polls_of, with_polls};
ghost use Rattle.httpd.specs.HttpdRepresents.{Becomes, TakesNoCapture, before_input, hits_after};
ghost use Rattle.httpd.specs.Reception.{IsDecided};
ghost use Rattle.httpd.specs.Web.{IsCounted};

use crate::reply::{acked_reply, due_call, fill_reply, want_reply};
use crate::request::{decide, receive_method, receive_target};
use crate::stage::Stage;
use crate::texts::is_scripted;
use crate::thread::Thread;
use crate::web::hits_of;
use app_events::{Now, Want};
use file_tree::{FileId, Image, SiteOf};
use generators::CallRecord;
use protosocket::{LineIn, Stops};
use web_pages::MOST_POLLS;

/// The pages of a connection, as `Pages`, where what is received and what is sent share their room.
#[derive(Drop)]
pub enum CompactPages<R> {
    /// The request line is being received: its second word, if `target`.
    Receiving {
        polls: u8,
        target: bool,
        line: LineIn,
    },
    /// A file was requested, and the reply is being sent.
    Replying {
        polls: u8,
        found: Option<FileId>,
        thread: Thread,
        capture: R,
    },
    /// It is no request for a file.
    Refused {
        polls: u8,
    },
}

/// Feeds a piece to the word that is received, and returns the stage of the request.
fn receive<B: Image>(
    site: &SiteOf<B>,
    hits: &mut [u32],
    target: bool,
    line: &mut LineIn,
    piece: &[u8],
) -> Stage
    requires counted { IsCounted site.now hits.old }
    ensures stage { (request : List ℕ) → ReceivesWord target line.old request
        → IsDecided (files_of site.now) line.new (request ++ piece.now) result }
    ensures hits { (request : List ℕ) → ReceivesWord target line.old request
        → hits.new ≡ hits_by (files_of site.now) hits.old NotYet (wanted (request ++ piece.now)) }
{
    let delivered = if target {
        receive_target(line, piece)
    } else {
        receive_method(line, piece)
    };
    decide(site, hits, line, delivered)
}

/// Returns whether the second word is being received.
fn is_target_stage(stage: Stage) -> bool
    ensures { result ≡ is_target_stage stage }
{
    match stage {
        Stage::Target => true,
        _ => false,
    }
}

impl<R: CallRecord> CompactPages<R> {
    /// Returns the pages of a connection that has received nothing.
    pub fn fresh() -> CompactPages<R>
        ensures { (site : SiteContent) (port : ℕ)
            → CompactRepresent (script_functions R.Function.calling R.output) R.text result site (before_input port) }
    {
        CompactPages::Receiving {
            polls: 0,
            target: false,
            line: LineIn::new(Stops::Space),
        }
    }

    /// Sets the number of ticks.
    fn set_polls(&mut self, count: u8)
        ensures { self.new ≡ with_polls self.old count }
    {
        match self {
            CompactPages::Receiving { polls, .. } => *polls = count,
            CompactPages::Replying { polls, .. } => *polls = count,
            CompactPages::Refused { polls } => *polls = count,
        }
    }

    /// Returns the number of ticks.
    fn polls(&self) -> u8
        ensures { result ≡ polls_of self.now }
    {
        match self {
            CompactPages::Receiving { polls, .. } => *polls,
            CompactPages::Replying { polls, .. } => *polls,
            CompactPages::Refused { polls } => *polls,
        }
    }

    /// Delivers the next bytes from the peer, and counts a hit of the file that they request.
    pub fn take_piece<B: Image>(&mut self, site: &SiteOf<B>, hits: &mut [u32], piece: &[u8])
        requires counted { IsCounted site.now hits.old }
        ensures part { Becomes (CompactRepresent (script_functions R.Function.calling R.output) R.text) site.now
            (λ p. record p { input = p.input ++ piece.now; polls = 0 }) self.old self.new }
        ensures hits { (p : AppState) → CompactRepresent (script_functions R.Function.calling R.output) R.text self.old site.now p
            → hits.new ≡ hits_after (files_of site.now) p piece.now hits.old }
    {
        let stage = match self {
            CompactPages::Receiving {
                polls,
                target,
                line,
            } => {
                let stage = receive(site, hits, *target, line, piece);
                *polls = 0;
                *target = is_target_stage(stage);
                stage
            }
            CompactPages::Replying { polls, .. } => {
                *polls = 0;
                return;
            }
            CompactPages::Refused { polls } => {
                *polls = 0;
                return;
            }
        };
        match stage {
            Stage::Method => {}
            Stage::Target => {}
            Stage::Reply { found } => {
                *self = CompactPages::Replying {
                    polls: 0,
                    found,
                    thread: Thread::Head { at: 0 },
                    capture: R::empty(),
                };
            }
            Stage::Refused => *self = CompactPages::Refused { polls: 0 },
        }
    }

    /// Whether the text that comes next may need a capture, as `is_due_at` of `Pages`.
    pub fn is_due_at<B: Image>(&self, site: &SiteOf<B>) -> bool
        requires { IsRepresented (CompactRepresent (script_functions R.Function.calling R.output) R.text) self.now site.now }
        ensures not_due { let g = script_functions R.Function.calling R.output in
            result ≡ false → TakesNoCapture (web_spec_by g (files_of site.now)) (CompactRepresent g R.text self.now site.now) }
    {
        match self {
            CompactPages::Replying { found, thread, .. } => match *thread {
                Thread::Head { .. } => false,
                _ => is_scripted(site, *found),
            },
            _ => false,
        }
    }

    /// Takes a capture, if the text that comes next needs one.
    pub fn prepare_at<B: Image>(&mut self, site: &SiteOf<B>, hits: &[u32], own: &R::Own, now: &Now)
        requires counted { IsCounted site.now hits.now }
        requires part { IsRepresented (CompactRepresent (script_functions R.Function.calling R.output) R.text) self.old site.now }
        ensures { let g = script_functions R.Function.calling R.output in
            Becomes (CompactRepresent g R.text) site.now
            (λ p. (web_spec_by g (files_of site.now)).prepare (hits.now ++ R.own_numbers own.now) p now.now) self.old self.new }
    {
        if let CompactPages::Replying {
            found,
            thread,
            capture,
            ..
        } = self
        {
            if let Some(due) = due_call(site, *found, capture, *thread) {
                let count = hits_of(site, hits, due.argument);
                let next = due.next;
                *capture = R::take(due.function, due.argument, count, own, now);
                *thread = next;
            }
        }
    }

    /// Returns what to send next. Requires that nothing is outstanding.
    pub fn want_of<B: Image>(&self, site: &SiteOf<B>) -> Want
        requires { IsRepresented (CompactRepresent (script_functions R.Function.calling R.output) R.text) self.now site.now }
        ensures { let g = script_functions R.Function.calling R.output in
            (p : AppState) → CompactRepresent g R.text self.now site.now p → result ≡ web_want_by g (files_of site.now) p }
    {
        if self.polls() == MOST_POLLS {
            return Want::Abort;
        }
        match self {
            CompactPages::Receiving { .. } => Want::Nothing,
            CompactPages::Replying {
                found,
                thread,
                capture,
                ..
            } => want_reply(site, *found, capture, *thread),
            CompactPages::Refused { .. } => Want::Close,
        }
    }

    /// Writes the text after the acknowledged offset, as much as `out` holds.
    pub fn fill_from<B: Image>(&self, site: &SiteOf<B>, out: &mut [u8])
        requires { let g = script_functions R.Function.calling R.output in
            CanSupply (λ site. web_spec_by g (files_of site)) (CompactRepresent g R.text) self.now site.now (length out.old) }
        ensures { let g = script_functions R.Function.calling R.output in
            (p : AppState) → CompactRepresent g R.text self.now site.now p
            → out.new ≡ take (length out.old) (text_left (web_spec_by g (files_of site.now)) p) }
    {
        match self {
            CompactPages::Receiving { .. } => {}
            CompactPages::Replying {
                found,
                thread,
                capture,
                ..
            } => fill_reply(site, *found, capture, *thread, out),
            CompactPages::Refused { .. } => {}
        }
    }

    /// Advances the acknowledged offset by `count` bytes.
    pub fn pass<B: Image>(&mut self, site: &SiteOf<B>, count: usize)
        requires { let g = script_functions R.Function.calling R.output in
            CanSupply (λ site. web_spec_by g (files_of site)) (CompactRepresent g R.text) self.old site.now count }
        ensures { Becomes (CompactRepresent (script_functions R.Function.calling R.output) R.text) site.now
            (λ p. record p { acked = p.acked + count; polls = 0 }) self.old self.new }
    {
        match self {
            CompactPages::Receiving { polls, .. } => *polls = 0,
            CompactPages::Replying {
                polls,
                found,
                thread,
                capture,
            } => {
                *polls = 0;
                *thread = acked_reply(site, *found, capture, *thread, count);
            }
            CompactPages::Refused { polls } => *polls = 0,
        }
    }

    /// Counts a tick with nothing outstanding.
    pub fn wait(&mut self)
        ensures { (site : SiteContent) → Becomes (CompactRepresent (script_functions R.Function.calling R.output) R.text) site
            (λ p. record p { polls = min MOST_POLLS (p.polls + 1) }) self.old self.new }
    {
        let count = MOST_POLLS.min(self.polls().saturating_add(1));
        self.set_polls(count);
    }
}
