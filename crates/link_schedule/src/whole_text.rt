//! Reads all lines of a schedule.

ghost use Rattle.std.specs.Prelude.{◌≡◌, ◌≤◌, length, map};
ghost use Rattle.link_schedule.specs.Answer.{ReadsSchedule};
ghost use Rattle.link_schedule.specs.Reading.{nothing_yet, read_lines as lines_meant};
ghost use Rattle.link_schedule.specs.Represents.{reported};

use crate::read_schedule::ReadSchedule;
use crate::refusal::Refusal;
use crate::schedule::Schedule;
use crate::schedule_reader::read_line;
use std::alloc::Global;

/// Reads the lines in turn, up to the first bad one.
pub fn read_lines(alloc: Global, lines: &[&[u8]]) -> Result<Schedule, ReadSchedule>
    requires { length lines.now ≤ 4194305 }
    ensures { ReadsSchedule result (lines_meant 1 nothing_yet (map (λ line. line.now) lines.now)) }
{
    let mut clients = Vec::new(alloc);
    let mut output = Vec::new(alloc);
    for (at, line) in lines.iter().enumerate() {
        let number = at as u32 + 1;
        if let Err(refusal) = read_line(alloc, &mut clients, &mut output, number, line) {
            return Err(refused(number, refusal));
        }
    }
    Ok(Schedule {
        clients,
        lines: output,
    })
}

/// Returns a line's refusal, with its number.
fn refused(line: u32, refusal: Refusal) -> ReadSchedule
    ensures { result ≡ reported line refusal }
{
    match refusal {
        Refusal::Faulty(why) => ReadSchedule::Bad { line, why },
        Refusal::NoMemory => ReadSchedule::NoMemory,
    }
}
