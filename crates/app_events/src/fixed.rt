ghost use Rattle.std.specs.Prelude.{◌≡◌, ◌+◌, ◌≤◌, [], length, take, drop, ◌==◌};
ghost use Rattle.app_events.specs.FixedSpec.{fixed_spec, hello};

use crate::app::App;
use crate::ending::Ending;
use crate::now::Now;
use crate::want::Want;
use uip_wire::{Port, WEB_PORT};

/// The application that replies `hello` and a line feed to the first byte delivered, at port 80.
#[derive(Drop)]
pub struct Fixed {
    pub heard: bool,
    /// The number of bytes that are acknowledged.
    pub at: u32,
}

impl App for Fixed {
    ghost use Rattle.uip_wire.specs.declared.port.TheConstants.{WEB_PORT};
    ghost use Rattle.app_events.specs.FixedSpec.{FixedRepresents};
    ghost use Rattle.app_events.specs.Lemmas.FixedLaws.{fixed_lawful, fixed_starts, fixed_same_left};

    type Shared = ();

    ghost Config = { Unit {0} };

    ghost config = { λ _. tt };

    ghost numbers = { λ _. [] };

    ghost app_spec = { λ _. fixed_spec };

    ghost represents = { λ a _ p. FixedRepresents a p };

    ghost served = { λ port. port == WEB_PORT };

    fn serves(port: Port) -> bool {
        port.0 == WEB_PORT
    }

    fn idle() -> Fixed {
        Fixed {
            heard: false,
            at: 0,
        }
    }

    fn connected(&mut self, _shared: &mut (), _port: Port) {
        self.heard = false;
        self.at = 0;
    }

    fn newdata(&mut self, _shared: &mut (), piece: &[u8]) {
        if !piece.is_empty() {
            self.heard = true;
        }
    }

    fn is_due(&self, _shared: &()) -> bool {
        false
    }

    fn prepare(&mut self, _shared: &(), _now: &Now) {}

    fn want(&self, _shared: &()) -> Want {
        if !self.heard {
            Want::Nothing
        } else if self.at < 6 {
            Want::Send((6 - self.at) as usize)
        } else {
            Want::Close
        }
    }

    fn fill(&self, _shared: &(), out: &mut [u8]) {
        copy_hello(self.at as usize, out);
    }

    fn acked(&mut self, _shared: &mut (), count: usize) {
        self.at += count as u32;
    }

    fn polled(&mut self, _shared: &mut ()) {}

    fn ended(&mut self, _shared: &mut (), _how: Ending) {}

    ghost lawful = { λ a _. fixed_lawful a };

    ghost starts = { λ _. fixed_starts };

    ghost same_left = { λ a _ p q. fixed_same_left a p q };
}

/// Copies the text from an offset on.
fn copy_hello(at: usize, out: &mut [u8])
    requires { at + length out.old ≤ 6 }
    ensures { out.new ≡ take (length out.old) (drop at hello) }
{
    let text: &[u8] = b"hello\n";
    let end = at + out.len();
    out.copy_from_slice(&text[at..end]);
}
