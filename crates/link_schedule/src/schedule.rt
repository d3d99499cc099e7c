//! The schedule, and the reading of its text.

use crate::client_plan::ClientPlan;
use crate::line::Line;
use crate::read_schedule::ReadSchedule;
use crate::texts::lines_of;
use crate::whole_text::read_lines;
use crate::why::Why;
use std::alloc::Global;
use std::marker::Model;

/// A schedule: its clients in the order of their numbers, from 1 on, and its other lines in order.
#[derive(Debug, Drop)]
pub struct Schedule {
    pub clients: Vec<ClientPlan>,
    pub lines: Vec<Line>,
}

impl Model for Schedule {
    ghost use Rattle.link_schedule.specs.Kept.{Keeps};
    ghost use Rattle.link_schedule.specs.Reading.{SchedulePlan};
    ghost use Rattle.link_schedule.specs.Represents.{content_of};

    ghost Value = { SchedulePlan };

    ghost view = { λ schedule. content_of schedule.clients.items schedule.lines.items };

    ghost invariant = { λ schedule. Keeps (content_of schedule.clients.items schedule.lines.items) };
}

/// The greatest length of a text, in bytes.
const MOST_BYTES: usize = 4194304;

impl Schedule {
    ghost use Rattle.link_schedule.specs.Answer.{ReadsSchedule};
    ghost use Rattle.link_schedule.specs.Reading.{read_text};

    /// Reads the schedule that a text spells, or returns its first bad line. Runs nothing.
    #[tactic(auto, unfolding(crate::specs::Reading::read_text))]
    pub fn read(alloc: Global, text: &[u8]) -> Result<Schedule, ReadSchedule>
        ensures { ReadsSchedule result (read_text text.now) }
    {
        if text.len() > MOST_BYTES {
            return Err(ReadSchedule::Bad {
                line: 0,
                why: Why::Long,
            });
        }
        match lines_of(alloc, text) {
            Ok(lines) => read_lines(alloc, lines.as_slice()),
            Err(_) => Err(ReadSchedule::NoMemory),
        }
    }
}
