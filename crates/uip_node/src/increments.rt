//! Raises counters of a node.

ghost use Rattle.std.specs.Prelude.{◌≡◌, ◌<◌, ◌+◌, ◌==◌, ℕ, if◌then◌else◌, length, slice_index};
ghost use Rattle.uip_wire.specs.Prelude.{wrap};
ghost use Rattle.uip_node.specs.Prelude.{marks, raise};

/// Adds 1, modulo 2^32, to the counters at three indices; an index of 20 or more is none.
/// [add: counter] The length of the array.
pub(crate) fn raised(net: [u32; 20], first: usize, second: usize, third: usize) -> [u32; 20]
    ensures { result ≡ raise (marks first second third) net }
{
    let mut net = net;
    raise_at(&mut net, first);
    raise_at(&mut net, apart(second, first));
    raise_at(&mut net, apart(apart(third, first), second));
    net
}

/// Returns an index, or 20 if it is the other one, so that no counter rises twice.
/// [add: counter] The length of the array.
fn apart(place: usize, other: usize) -> usize
    ensures { result ≡ (if place == other then 20 else place) }
{
    if place == other { 20 } else { place }
}

/// Adds 1, modulo 2^32, to the counter at an index.
#[tactic(auto, using(crate::proofs::Raises::risen_at, crate::proofs::Raises::stays_at))]
fn raise_at(net: &mut [u32; 20], place: usize)
    ensures long { length net.new ≡ length net.old }
    ensures each { (k : ℕ) → k < length net.old → slice_index net.new k
        ≡ (if k == place then wrap (slice_index net.old k + 1) else slice_index net.old k) }
{
    if place < net.len() {
        net[place] = net[place].wrapping_add(1);
    }
}
