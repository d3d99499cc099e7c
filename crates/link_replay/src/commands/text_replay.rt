//! Plays a schedule's text by the web server of a site.

ghost use Rattle.std.specs.Prelude.{OnErr, OnOk};
ghost use Rattle.std.specs.Io.KnownBytes.{Appends};
ghost use Rattle.uip_edge.specs.Prelude.{HasCause, AppendsPrefix, WritesEnd, sink_view};
ghost use Rattle.file_tree.specs.Prelude.{files_of};
ghost use Rattle.link_replay.specs.Prelude.{OfWorld, WritesDue, IsPlayDue, IsTextDue, WritesText, WritesFault, reported_of};
ghost use Rattle.link_replay.specs.Outcome.{bad_schedule as line_of};
ghost use Rattle.link_replay.specs.declared.commands.replay_end.ReplayEnd.TheVariants as ends;

use crate::commands::command_lines::{bad_schedule, write_text};
use crate::commands::output_form::OutputForm;
use crate::commands::replay_end::ReplayEnd;
use crate::world::WorldOf;
use crate::world::schedule_play::play;
use crate::world::site_facts::see_loaded;
use app_events::App;
use file_tree::Site;
use link_schedule::{ReadSchedule, Schedule, Why};
use std::alloc::Global;
use uip_edge::{Failed, Sink};

/// Plays the text of a schedule by the web server of a site, and writes the report, or the line of the schedule's first fault.
pub(crate) fn play_text<K: Sink>(
    alloc: Global,
    site: Site,
    text: &[u8],
    show: bool,
    out: &mut K,
) -> ReplayEnd
    ensures { WritesDue (IsTextDue (files_of site) text.now show) (sink_view K.Sink out.old) (sink_view K.Sink out.new) result }
{
    match Schedule::read(alloc, text) {
        Ok(schedule) => play_schedule(alloc, site, &schedule, OutputForm::Report { show }, out),
        Err(fault) => refuse(alloc, fault, out),
    }
}

/// Plays a schedule by the web server of a site, and writes the result, or the line of the first refusal.
pub(crate) fn play_schedule<K: Sink>(
    alloc: Global,
    site: Site,
    schedule: &Schedule,
    chosen_form: OutputForm,
    out: &mut K,
) -> ReplayEnd
    ensures { WritesDue (IsPlayDue (files_of site) schedule.now chosen_form)
        (sink_view K.Sink out.old) (sink_view K.Sink out.new) result }
{
    see_loaded(&site);
    match play(alloc, schedule, site) {
        Ok(world) => tell(&world, chosen_form, out),
        Err(fault) => refuse(alloc, fault, out),
    }
}

/// Writes the result of a world, and returns the end.
fn tell<A: App, K: Sink>(world: &WorldOf<A>, chosen_form: OutputForm, out: &mut K) -> ReplayEnd
    ensures { OfWorld A.App world.now (λ w.
        WritesEnd ends.Done ends.WriteFault (sink_view K.Sink out.old) (sink_view K.Sink out.new) (reported_of chosen_form w) result) }
{
    match write_world(world, chosen_form, out) {
        Ok(()) => ReplayEnd::Done,
        Err(_) => ReplayEnd::WriteFault,
    }
}

/// Writes the result of a world.
fn write_world<A: App, K: Sink>(
    world: &WorldOf<A>,
    chosen_form: OutputForm,
    out: &mut K,
) -> Result<(), Failed>
    ensures ok { OnOk result (OfWorld A.App world.now (λ w. Appends (K.written out.old) (K.written out.new) (reported_of chosen_form w))) }
    ensures err { OnErr result (OfWorld A.App world.now (λ w. AppendsPrefix (K.written out.old) (K.written out.new)
        (reported_of chosen_form w))) }
    ensures cause { HasCause (K.faults out.old) (K.faults out.new) result }
{
    match chosen_form {
        OutputForm::Report { show } => world.report(show, out),
        OutputForm::Summary => world.summary(out),
    }
}

/// Writes the line of a bad schedule.
fn refuse<K: Sink>(alloc: Global, fault: ReadSchedule, out: &mut K) -> ReplayEnd
    ensures { WritesFault fault (sink_view K.Sink out.old) (sink_view K.Sink out.new) result }
{
    match fault {
        ReadSchedule::Bad { line, why } => refuse_line(alloc, line, why, out),
        ReadSchedule::NoMemory => ReplayEnd::NoMemory,
    }
}

/// Writes the line with the number of the bad line of a schedule, and the reason.
fn refuse_line<K: Sink>(alloc: Global, line: u32, why: Why, out: &mut K) -> ReplayEnd
    ensures { WritesText (line_of line why) (ends.BadSchedule line why) (sink_view K.Sink out.old) (sink_view K.Sink out.new) result }
{
    match bad_schedule(alloc, line, why) {
        Ok(text) => write_text(&text, ReplayEnd::BadSchedule { line, why }, out),
        Err(_) => ReplayEnd::NoMemory,
    }
}
