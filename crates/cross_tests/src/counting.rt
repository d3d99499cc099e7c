//! An application that counts connections.

ghost use Rattle.std.specs.Prelude.{◌≡◌, ◌+◌, ◌≤◌, [], ◌∷◌, length, take, drop, ◌==◌};
ghost use Rattle.cross_tests.specs.CounterSpec.{counter_spec};

use app_events::{App, Ending, Now, Want};
use uip_wire::Port;

/// How many connections have sent, modulo 256.
#[derive(Clone, Copy, Debug, PartialEq, Eq)]
pub struct Tally {
    pub spoken: u8,
}

/// An application at port 7 whose connections share a count. Each replies to the first byte that it receives with the count, as
/// one byte, and a line feed.
#[derive(Drop)]
pub struct Counter {
    pub heard: bool,
    pub number: u8,
    /// The bytes that are acknowledged.
    pub at: u32,
}

impl App for Counter {
    ghost use Rattle.cross_tests.specs.CounterSpec.{CounterRepresents};
    ghost use Rattle.cross_tests.specs.Lemmas.CounterLaws.{counter_lawful, counter_starts, counter_same_left};

    type Shared = Tally;

    ghost Config = { Unit {0} };

    ghost config = { λ _. tt };

    ghost numbers = { λ tally. tally.spoken ∷ [] };

    ghost app_spec = { λ _. counter_spec };

    ghost represents = { λ a _ p. CounterRepresents a p };

    ghost served = { λ port. port == 7 };

    fn serves(port: Port) -> bool {
        port.0 == 7
    }

    fn idle() -> Counter {
        Counter {
            heard: false,
            number: 0,
            at: 0,
        }
    }

    fn connected(&mut self, _shared: &mut Tally, _port: Port) {
        self.heard = false;
        self.number = 0;
        self.at = 0;
    }

    fn newdata(&mut self, shared: &mut Tally, piece: &[u8]) {
        if !self.heard && !piece.is_empty() {
            self.heard = true;
            self.number = shared.spoken;
            shared.spoken = shared.spoken.wrapping_add(1);
        }
    }

    fn is_due(&self, _shared: &Tally) -> bool {
        false
    }

    fn prepare(&mut self, _shared: &Tally, _now: &Now) {}

    fn want(&self, _shared: &Tally) -> Want {
        if !self.heard {
            Want::Nothing
        } else if self.at < 2 {
            Want::Send((2 - self.at) as usize)
        } else {
            Want::Close
        }
    }

    fn fill(&self, _shared: &Tally, out: &mut [u8]) {
        copy_number(self.number, self.at as usize, out);
    }

    fn acked(&mut self, _shared: &mut Tally, count: usize) {
        self.at += count as u32;
    }

    fn polled(&mut self, _shared: &mut Tally) {}

    fn ended(&mut self, _shared: &mut Tally, _how: Ending) {}

    ghost lawful = { λ a _. counter_lawful a };

    ghost starts = { λ _. counter_starts };

    ghost same_left = { λ a _ p q. counter_same_left a p q };
}

/// Copies the text of a number from an offset on.
fn copy_number(number: u8, at: usize, out: &mut [u8])
    requires { at + length out.old ≤ 2 }
    ensures { out.new ≡ take (length out.old) (drop at (number ∷ 10 ∷ [])) }
{
    let text = [number, b'\n'];
    let end = at + out.len();
    out.copy_from_slice(&text[at..end]);
}
