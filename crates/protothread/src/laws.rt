//! What follows for every thread that sends text.

ghost use Rattle.std.specs.Prelude.{◌≡◌, ◌+◌, ◌<◌, ◌≤◌, ◌^◌, ◌++◌, length, take};
ghost use Rattle.protothread.specs.Prelude.{FillsInTurn};

use crate::says::Says;

/// Filling twice, with an `advance` between, writes what filling once writes.
pub fn fills_in_turn()
    ensures { FillsInTurn }
{}

/// Fills `prefix`, advances by its length, and fills `back`: together these hold the prefix of the text that is left.
pub fn fill_in_turn<S: Says>(thread: &mut S, world: &[u8], prefix: &mut [u8], back: &mut [u8])
    requires fits { S.fits thread.old world.now }
    requires short { length (S.text_left thread.old world.now) < 2 ^ 32 }
    requires enough { length prefix.old + length back.old ≤ length (S.text_left thread.old world.now) }
    ensures { prefix.new ++ back.new ≡ take (length prefix.old + length back.old) (S.text_left thread.old world.now) }
{
    thread.fill(world, prefix);
    thread.advance(world, prefix.len());
    thread.fill(world, back);
}
