//! The web server on one connection.

ghost use Rattle.std.specs.Prelude.{◌≡◌, ◌==◌, ℕ, ◌+◌, ◌++◌, false, length, min, take};
ghost use Rattle.app_events.specs.Prelude.{AppState, IsRepresented, CanSupply, text_left};
ghost use Rattle.file_tree.specs.Prelude.{SiteContent, files_of};
ghost use Rattle.generators.specs.Prelude.{script_functions};
ghost use Rattle.web_pages.specs.Prelude.{web_spec_by, web_want_by};
ghost use Rattle.web_pages.specs.declared.TheConstants.{MOST_POLLS};
ghost use Rattle.httpd.specs.HttpdRepresents.{Becomes, PagesRepresent, TakesNoCapture, before_input, hits_after};
ghost use Rattle.httpd.specs.Web.{IsCounted};

use crate::reply::{acked_reply, due_call, fill_reply, want_reply};
use crate::request::{decide, receive_method, receive_target};
use crate::stage::Stage;
use crate::texts::is_scripted;
use crate::thread::Thread;
use crate::web::{Web, hits_of};
use app_events::{App, Ending, Now, Want};
use file_tree::{Image, SiteOf};
use generators::{CallRecord, Capture};
use protosocket::{LineIn, Stops};
use uip_wire::{Port, WEB_PORT};
use web_pages::MOST_POLLS;

/// Pages on one connection: the request so far, the offset at which the reply resumes, and the record of the call whose text is being sent.
#[derive(Drop)]
pub struct Pages<R> {
    pub stage: Stage,
    /// The word of the request line that is being received.
    pub line: LineIn,
    pub thread: Thread,
    pub capture: R,
    /// The ticks with nothing outstanding, since data was last delivered or acknowledged.
    pub polls: u8,
}

/// The web server whose scripts call the functions of uIP.
pub type Httpd = Pages<Capture>;

/// What each call of an application does to the pages of a connection, whatever functions their scripts call.
impl<R: CallRecord> Pages<R> {
    /// Returns the pages of a connection that has received nothing.
    pub fn fresh() -> Pages<R>
        ensures { (site : SiteContent) (port : ℕ)
            → PagesRepresent (script_functions R.Function.calling R.output) R.text result site (before_input port) }
    {
        Pages {
            stage: Stage::Method,
            line: LineIn::new(Stops::Space),
            thread: Thread::End,
            capture: R::empty(),
            polls: 0,
        }
    }

    /// Delivers the next bytes from the peer, and counts a hit of the file that they request.
    pub fn take_piece<B: Image>(&mut self, site: &SiteOf<B>, hits: &mut [u32], piece: &[u8])
        requires counted { IsCounted site.now hits.old }
        ensures part { Becomes (PagesRepresent (script_functions R.Function.calling R.output) R.text) site.now
            (λ p. record p { input = p.input ++ piece.now; polls = 0 }) self.old self.new }
        ensures hits { (p : AppState) → PagesRepresent (script_functions R.Function.calling R.output) R.text self.old site.now p
            → hits.new ≡ hits_after (files_of site.now) p piece.now hits.old }
    {
        self.polls = 0;
        match self.stage {
            Stage::Method => {
                let delivered = receive_method(&mut self.line, piece);
                self.stage = decide(site, hits, &self.line, delivered);
                self.thread = Thread::Head { at: 0 };
            }
            Stage::Target => {
                let delivered = receive_target(&mut self.line, piece);
                self.stage = decide(site, hits, &self.line, delivered);
                self.thread = Thread::Head { at: 0 };
            }
            Stage::Reply { .. } => {}
            Stage::Refused => {}
        }
    }

    /// Whether the text that comes next may need a capture: only a script has calls, and none is
    /// due in the head. Whether one is due is for `prepare_at` to find.
    pub fn is_due_at<B: Image>(&self, site: &SiteOf<B>) -> bool
        requires { IsRepresented (PagesRepresent (script_functions R.Function.calling R.output) R.text) self.now site.now }
        ensures not_due { let g = script_functions R.Function.calling R.output in
            result ≡ false → TakesNoCapture (web_spec_by g (files_of site.now)) (PagesRepresent g R.text self.now site.now) }
    {
        match self.stage {
            Stage::Reply { found } => match self.thread {
                Thread::Head { .. } => false,
                _ => is_scripted(site, found),
            },
            _ => false,
        }
    }

    /// Takes a capture, if the text that comes next needs one.
    pub fn prepare_at<B: Image>(&mut self, site: &SiteOf<B>, hits: &[u32], own: &R::Own, now: &Now)
        requires counted { IsCounted site.now hits.now }
        requires part { IsRepresented (PagesRepresent (script_functions R.Function.calling R.output) R.text) self.old site.now }
        ensures { let g = script_functions R.Function.calling R.output in
            Becomes (PagesRepresent g R.text) site.now
            (λ p. (web_spec_by g (files_of site.now)).prepare (hits.now ++ R.own_numbers own.now) p now.now) self.old self.new }
    {
        if let Stage::Reply { found } = self.stage {
            if let Some(due) = due_call(site, found, &self.capture, self.thread) {
                let count = hits_of(site, hits, due.argument);
                let thread = due.next;
                self.capture = R::take(due.function, due.argument, count, own, now);
                self.thread = thread;
            }
        }
    }

    /// Returns what to send next. Requires that nothing is outstanding.
    pub fn want_of<B: Image>(&self, site: &SiteOf<B>) -> Want
        requires { IsRepresented (PagesRepresent (script_functions R.Function.calling R.output) R.text) self.now site.now }
        ensures { let g = script_functions R.Function.calling R.output in
            (p : AppState) → PagesRepresent g R.text self.now site.now p → result ≡ web_want_by g (files_of site.now) p }
    {
        if self.polls == MOST_POLLS {
            return Want::Abort;
        }
        match self.stage {
            Stage::Method | Stage::Target => Want::Nothing,
            Stage::Refused => Want::Close,
            Stage::Reply { found } => want_reply(site, found, &self.capture, self.thread),
        }
    }

    /// Writes the text after the acknowledged offset, as much as `out` holds.
    pub fn fill_from<B: Image>(&self, site: &SiteOf<B>, out: &mut [u8])
        requires { let g = script_functions R.Function.calling R.output in
            CanSupply (λ site. web_spec_by g (files_of site)) (PagesRepresent g R.text) self.now site.now (length out.old) }
        ensures { let g = script_functions R.Function.calling R.output in
            (p : AppState) → PagesRepresent g R.text self.now site.now p
            → out.new ≡ take (length out.old) (text_left (web_spec_by g (files_of site.now)) p) }
    {
        if let Stage::Reply { found } = self.stage {
            fill_reply(site, found, &self.capture, self.thread, out);
        }
    }

    /// Advances the acknowledged offset by `count` bytes.
    pub fn pass<B: Image>(&mut self, site: &SiteOf<B>, count: usize)
        requires { let g = script_functions R.Function.calling R.output in
            CanSupply (λ site. web_spec_by g (files_of site)) (PagesRepresent g R.text) self.old site.now count }
        ensures { Becomes (PagesRepresent (script_functions R.Function.calling R.output) R.text) site.now
            (λ p. record p { acked = p.acked + count; polls = 0 }) self.old self.new }
    {
        self.polls = 0;
        match self.stage {
            Stage::Reply { found } => {
                self.thread = acked_reply(site, found, &self.capture, self.thread, count);
            }
            _ => {}
        }
    }

    /// Counts a tick with nothing outstanding.
    pub fn wait(&mut self)
        ensures { (site : SiteContent) → Becomes (PagesRepresent (script_functions R.Function.calling R.output) R.text) site
            (λ p. record p { polls = min MOST_POLLS (p.polls + 1) }) self.old self.new }
    {
        self.polls = MOST_POLLS.min(self.polls.saturating_add(1));
    }
}

impl App for Httpd {
    ghost use Rattle.generators.specs.ScriptFunctions.{uip};
    ghost use Rattle.web_pages.specs.Serving.{is_served};
    ghost use Rattle.web_pages.specs.WebSpec.{web_spec};
    ghost use Rattle.web_pages.specs.Lemmas.WebLaws.{web_lawful, web_starts};
    ghost use Rattle.httpd.specs.HttpdRepresents.{HttpdRepresents};
    ghost use Rattle.httpd.specs.Lemmas.SameLeft.{same_left};

    type Shared = Web;

    ghost Config = { SiteContent };

    ghost config = { λ web. web.site };

    ghost numbers = { λ web. web.hits };

    ghost app_spec = { λ site. web_spec (files_of site) };

    ghost represents = { HttpdRepresents };

    ghost served = { is_served };

    fn serves(port: Port) -> bool {
        port.0 == WEB_PORT
    }

    fn idle() -> Httpd {
        Pages::fresh()
    }

    fn connected(&mut self, _shared: &mut Web, _port: Port) {
        *self = Pages::fresh();
    }

    fn newdata(&mut self, shared: &mut Web, piece: &[u8]) {
        self.take_piece(&shared.site, &mut shared.hits, piece);
    }

    fn is_due(&self, shared: &Web) -> bool {
        self.is_due_at(&shared.site)
    }

    fn prepare(&mut self, shared: &Web, now: &Now) {
        self.prepare_at(&shared.site, &shared.hits, &(), now);
    }

    fn want(&self, shared: &Web) -> Want {
        self.want_of(&shared.site)
    }

    fn fill(&self, shared: &Web, out: &mut [u8]) {
        self.fill_from(&shared.site, out);
    }

    fn acked(&mut self, shared: &mut Web, count: usize) {
        self.pass(&shared.site, count);
    }

    fn polled(&mut self, _shared: &mut Web) {
        self.wait();
    }

    fn ended(&mut self, _shared: &mut Web, _how: Ending) {}

    ghost lawful = { λ a site. web_lawful uip (files_of site) (HttpdRepresents a site) };

    ghost starts = { λ site. web_starts uip (files_of site) };

    ghost same_left = { same_left };
}
