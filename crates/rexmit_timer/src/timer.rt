//! The timer and its ticks.

ghost use Rattle.std.specs.Prelude.{◌≡◌, ℕ, ◌+◌, ◌*◌, ◌^◌, ◌<◌, ◌≤◌, ◌↔◌, min};
ghost use Rattle.rexmit_timer.specs.Beats.{IsAfter};
ghost use Rattle.rexmit_timer.specs.Ages.{give_up_age, IsAtAge, IsBeatOfAge};

/// The ticks until the next retransmission, and the number of retransmissions so far.
#[derive(Clone, Copy, Drop)]
pub struct Timer {
    pub count: u8,
    pub tries: u8,
}

/// The result of a tick: wait, retransmit, or give up.
#[derive(Clone, Copy, Drop)]
pub enum Beat {
    Wait,
    Again,
    GiveUp,
}

/// The ticks before the first retransmission, less one.
pub const FIRST_COUNT: u8 = 3;

/// The most retransmissions of a text or a FIN.
pub const TEXT_LIMIT: u8 = 8;

/// The most retransmissions of a SYN-ACK.
pub const SYN_ACK_LIMIT: u8 = 5;

impl Timer {
    /// Returns the timer of what was just sent for the first time.
    pub fn fresh() -> Timer
        ensures count { result.count ≡ FIRST_COUNT }
        ensures tries { result.tries ≡ 0 }
        ensures age { IsAtAge result 0 }
    {
        Timer {
            count: FIRST_COUNT,
            tries: 0,
        }
    }

    /// Returns the timer of a connection with nothing outstanding.
    pub fn rest() -> Timer
        ensures count { result.count ≡ 0 }
        ensures tries { result.tries ≡ 0 }
    {
        Timer { count: 0, tries: 0 }
    }

    /// Counts one tick, with at most `limit` retransmissions.
    pub fn tick(&mut self, limit: u8) -> Beat
        requires tries { self.old.tries ≤ limit }
        requires limit { limit ≤ TEXT_LIMIT }
        ensures wait { (result ≡ Beat.Wait) ↔ (0 < self.old.count) }
        ensures again { (result ≡ Beat.Again) ↔ ((self.old.count ≡ 0) × (self.old.tries < limit)) }
        ensures give_up { (result ≡ Beat.GiveUp) ↔ ((self.old.count ≡ 0) × (self.old.tries ≡ limit)) }
        ensures after { IsAfter result self.old self.new }
        ensures ages { (age : ℕ) → age < give_up_age limit → IsAtAge self.old age → IsBeatOfAge limit age result self.new }
    {
        if self.count > 0 {
            self.count -= 1;
            return Beat::Wait;
        }
        if self.tries == limit {
            return Beat::GiveUp;
        }
        self.count = next_count(self.tries);
        self.tries += 1;
        Beat::Again
    }
}

/// Returns the ticks before the next retransmission, less one: doubled with each of the first four.
fn next_count(tries: u8) -> u8
    ensures { result ≡ 3 * 2 ^ min tries 4 }
{
    match tries {
        0 => FIRST_COUNT,
        1 => 2 * FIRST_COUNT,
        2 => 4 * FIRST_COUNT,
        3 => 8 * FIRST_COUNT,
        _ => 16 * FIRST_COUNT,
    }
}
