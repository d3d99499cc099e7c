//! Two threads, one after the other, for `Then` and `Child`.

ghost use Rattle.std.specs.Prelude.{◌≡◌, ◌<◌, ◌≤◌, ◌^◌, ◌++◌, length, take, drop};

use crate::says::Says;

/// Fills from the text of the first thread, and after its end from the text of the second.
pub(crate) fn fill_both<A: Says, B: Says>(first: &A, second: &B, world: &[u8], out: &mut [u8])
    requires first_fits { A.fits first.now world.now }
    requires second_fits { B.fits second.now world.now }
    requires short { length (A.text_left first.now world.now ++ B.text_left second.now world.now) < 2 ^ 32 }
    requires enough { length out.old ≤ length (A.text_left first.now world.now ++ B.text_left second.now world.now) }
    ensures { out.new ≡ take (length out.old) (A.text_left first.now world.now ++ B.text_left second.now world.now) }
{
    let middle = first.left(world).min(out.len());
    let (prefix, back) = out.split_at_mut(middle);
    first.fill(world, prefix);
    second.fill(world, back);
}

/// Advances the first thread, and after its end the second.
pub(crate) fn advance_both<A: Says, B: Says>(
    first: &mut A,
    second: &mut B,
    world: &[u8],
    count: usize,
)
    requires first_fits { A.fits first.old world.now }
    requires second_fits { B.fits second.old world.now }
    requires short { length (A.text_left first.old world.now ++ B.text_left second.old world.now) < 2 ^ 32 }
    requires enough { count ≤ length (A.text_left first.old world.now ++ B.text_left second.old world.now) }
    ensures first_fits { A.fits first.new world.now }
    ensures second_fits { B.fits second.new world.now }
    ensures rest { A.text_left first.new world.now ++ B.text_left second.new world.now
        ≡ drop count (A.text_left first.old world.now ++ B.text_left second.old world.now) }
{
    let middle = first.left(world).min(count);
    first.advance(world, middle);
    second.advance(world, count - middle);
}
