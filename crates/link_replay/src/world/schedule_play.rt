//! Plays a schedule, line by line.

ghost use Rattle.std.specs.List.{list_all};
ghost use Rattle.std.specs.Prelude.{◌≡◌, ℕ, true, IfOk, Some, map, slice_get};
ghost use Rattle.file_tree.specs.Prelude.{files_of};
ghost use Rattle.httpd.specs.contracts.httpd.HttpdApp.TheImpl.{ghosts};
ghost use Rattle.web_pages.specs.Prelude.{is_served, no_hits, web_spec};
ghost use Rattle.link_schedule.specs.Kept.{event_in_range};
ghost use Rattle.link_world.specs.Prelude.{IsAct, OfLine, IsPlanned, Planned};
ghost use Rattle.link_replay.specs.Prelude.{FromHere, plan_from, HasReached, ServesHonest, KeepsPromises, LinesEnd};
ghost use Rattle.link_replay.specs.Prelude.{PlaysIfPaged, PlaysSchedule, event_at, refusal_at, WorldRepresents};
ghost use Rattle.link_world.specs.Schedule.{plays as played};

use crate::world::site_facts::see_loaded;
use crate::world::value_facts::{is_addr, is_short};
use crate::world::{World, WorldOf};
use app_events::App;
use file_tree::Site;
use httpd::{Httpd, Web};
use link_schedule::{Event, Line, ReadSchedule, Schedule, Why};
use link_world::StepFault;
use std::alloc::Global;

/// States that the numbers of an event fit their types, and that a mask in its range changes a byte.
/// [add: schedule-line] Its arm.
fn event_fits(event: &Event)
    ensures { (clients : ℕ) → event_in_range clients event.now ≡ true → OfLine IsAct event.now }
{
    match *event {
        Event::Window(_, window) => is_short(window),
        Event::Ping(source) => is_addr(source),
        Event::Opens(_)
        | Event::Again(_)
        | Event::Closes(_)
        | Event::Aborts(_)
        | Event::Give(_)
        | Event::Damage { .. }
        | Event::Tick(_)
        | Event::Round
        | Event::Twice
        | Event::Reverse
        | Event::Half
        | Event::Lose => (),
    }
}

/// Returns a line's refusal, with its number.
fn refused(line: u32, fault: StepFault) -> ReadSchedule
    ensures { result ≡ refusal_at line fault }
{
    let why = match fault {
        StepFault::NoDatagram => Why::NoDatagram,
        StepFault::NoByte => Why::NoByte,
        StepFault::AlreadyOpen => Why::AlreadyOpen,
        StepFault::NotOpen => Why::NotOpen,
        StepFault::Full => Why::Full,
        StepFault::NoMemory => return ReadSchedule::NoMemory,
    };
    ReadSchedule::Bad { line, why }
}

/// Does the lines in turn, up to the first that is refused.
fn play_lines<A: App>(world: &mut WorldOf<A>, lines: &[Line]) -> Result<(), ReadSchedule>
    requires ranges { (clients : ℕ) × (list_all (λ line. event_in_range clients line.event) lines.now ≡ true) }
    ensures played { FromHere A.App world.old (λ m served w. LinesEnd m served (λ done. WorldRepresents A.App world.new) lines.now result
        (played m served (map event_at lines.now) w)) }
{
    for line in lines.iter() {
        event_fits(&line.event);
        if let Err(fault) = world.line(&line.event) {
            return Err(refused(line.at, fault));
        }
    }
    Ok(())
}

/// Returns the world that a schedule's lines reach, or the first line that is refused, with the reason. After a refusal and
/// after NoMemory `shared` is dropped.
pub(crate) fn play_by<A: App>(
    alloc: Global,
    schedule: &Schedule,
    shared: A::Shared,
) -> Result<WorldOf<A>, ReadSchedule>
    ensures planned { IfOk result (λ world. (k : ℕ) (p : Planned)
        → slice_get (plan_from 1 schedule.now.clients) k ≡ Some p → IsPlanned p) }
    ensures plays { PlaysIfPaged (A.app_spec (A.config shared)) A.served (A.numbers shared) schedule.now
        (WorldRepresents A.App) result }
{
    let Ok(mut world) = WorldOf::opening(alloc, schedule.clients.as_slice(), shared) else {
        return Err(ReadSchedule::NoMemory);
    };
    play_lines(&mut world, schedule.lines.as_slice())?;
    Ok(world)
}

/// Returns the world of the web server of a site that a schedule's lines reach, or the first line that is refused, with the
/// reason. After a refusal and after NoMemory the site is dropped.
pub fn play(alloc: Global, schedule: &Schedule, site: Site) -> Result<World, ReadSchedule>
    ensures planned { IfOk result (λ world. (k : ℕ) (p : Planned)
        → slice_get (plan_from 1 schedule.now.clients) k ≡ Some p → IsPlanned p) }
    ensures plays { PlaysSchedule (web_spec (files_of site)) is_served (no_hits (files_of site)) schedule.now
        (WorldRepresents ghosts) result }
    ensures promises { IfOk result (λ world. HasReached (files_of site) schedule.now (WorldRepresents ghosts world)
        (KeepsPromises (files_of site))) }
    ensures honest { IfOk result (λ world. HasReached (files_of site) schedule.now (WorldRepresents ghosts world)
        (ServesHonest (files_of site) schedule.now)) }
{
    see_loaded(&site);
    let Ok(web) = Web::new(alloc, site) else {
        return Err(ReadSchedule::NoMemory);
    };
    play_by::<Httpd>(alloc, schedule, web)
}
