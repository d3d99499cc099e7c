ghost use Rattle.std.specs.Prelude.{◌≡◌, ◌+◌, ◌≤◌, ◌∷◌, ◌++◌, [], List, false};
ghost use Rattle.rexmit_timer.specs.declared.timer.TheConstants.{TEXT_LIMIT};
ghost use Rattle.udp_resolver.specs.Fates.{is_given_up, silences};
ghost use Rattle.udp_resolver.specs.LineEvents.{LineEvent, Silence};
ghost use Rattle.udp_resolver.specs.Steps.{IsClockAt, is_due};

use rexmit_timer::{Beat, TEXT_LIMIT, Timer};

/// Counts when questions are sent again and when they are given up. All are sent at once, so one clock serves them all.
#[derive(Drop)]
pub(crate) struct Clock {
    pub timer: Timer,
    pub given_up: bool,
}

impl Clock {
    /// Returns the clock at the first queries.
    pub fn new() -> Clock
        ensures at { IsClockAt [] result }
        ensures tries { result.timer.tries ≤ TEXT_LIMIT }
    {
        Clock {
            timer: Timer::fresh(),
            given_up: false,
        }
    }

    /// Counts a silence. Returns whether the open questions are to be sent again.
    pub fn tick(&mut self) -> bool
        requires tries { self.old.timer.tries ≤ TEXT_LIMIT }
        ensures tries { self.new.timer.tries ≤ TEXT_LIMIT }
        ensures at { (happened : List LineEvent) → is_given_up happened ≡ false → IsClockAt happened self.old
            → IsClockAt (happened ++ Silence ∷ []) self.new }
        ensures again { (happened : List LineEvent) → is_given_up happened ≡ false → IsClockAt happened self.old
            → result ≡ is_due (silences happened + 1) }
    {
        match self.timer.tick(TEXT_LIMIT) {
            Beat::Wait => false,
            Beat::Again => true,
            Beat::GiveUp => {
                self.given_up = true;
                false
            }
        }
    }
}
