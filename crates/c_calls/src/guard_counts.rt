//! What a guard counted, as C reads it.

ghost use Rattle.std.specs.Prelude.{◌≡◌};
ghost use Rattle.c_calls.specs.Results.{guard_count};

use guarded_node::GuardCounts;

/// Returns a count of a guard, by its number for C: with 1 the datagrams that it dropped, with 2 the connections that it gave up.
#[inline]
pub fn guard_count(counts: GuardCounts, number: usize) -> u32
    ensures { result ≡ guard_count number counts }
{
    if number == 1 {
        counts.dropped
    } else {
        counts.displaced
    }
}
