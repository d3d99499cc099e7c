//! Schedules as text: the clients of a replay, and the lines that state what happens on the link. The whole text is read before
//! any line is run, and its first bad line is reported with the reason.
#![tactic(auto)]

mod client_plan;
mod event;
mod events;
mod laws;
mod line;
mod numbers;
mod read_schedule;
mod refusal;
mod requests;
mod schedule;
mod schedule_reader;
mod sides;
#[cfg(test)]
mod tests;
mod texts;
mod whole_text;
mod why;

pub use client_plan::ClientPlan;
pub use event::Event;
pub use laws::worked_schedules;
pub use line::Line;
pub use read_schedule::ReadSchedule;
pub use schedule::Schedule;
pub use why::Why;
