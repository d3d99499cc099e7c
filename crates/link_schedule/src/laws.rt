//! What the definition gives for texts that were worked by hand.

ghost use Rattle.link_schedule.specs.Worked.{AreWorkedSchedules};

/// The definition reads the schedules as they were worked by hand.
#[tactic(auto, using(crate::proofs::Worked::worked))]
pub fn worked_schedules()
    ensures { AreWorkedSchedules }
{}
