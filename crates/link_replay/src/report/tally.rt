//! The counts of a replay's clients and datagrams.

ghost use Rattle.std.specs.Prelude.{◌≡◌, ◌==◌, count_by, is_none, length, map, not, sum_by};
ghost use Rattle.link_replay.specs.Prelude.{column, code_side_shown, tally_of};

use crate::world::sent::Sent;
use crate::world::side::Side;
use link_client::ClientState;

/// How many clients there are by their states, how many are not clean, how many bytes of their pages they accepted in all, how
/// many datagrams were sent, and how many of them are retransmissions.
#[derive(Clone, Copy, Debug, PartialEq, Eq)]
pub struct Tally {
    pub closed: usize,
    pub opened: usize,
    pub reset: usize,
    pub other: usize,
    pub stale: usize,
    pub bytes: u128,
    pub datagrams: usize,
    pub again: usize,
}

/// Counts a replay's clients and datagrams.
pub(crate) fn count_up(sides: &[Side], sent: &[Sent]) -> Tally
    ensures { result ≡ tally_of (map code_side_shown sides.now) (map (λ e. e.again) sent.now) }
{
    let closed = count_in(sides, 0);
    let opened = count_in(sides, 1);
    let reset = count_in(sides, 2);
    let other = count_in(sides, 3);
    Tally {
        closed,
        opened,
        reset,
        other,
        stale: stale(sides),
        bytes: bytes_taken(sides),
        datagrams: sent.len(),
        again: again(sent),
    }
}

/// Returns the column of the summary in which a client of this state is counted.
fn column(state: ClientState) -> u8
    ensures { result ≡ column state }
{
    match state {
        ClientState::Closed => 0,
        ClientState::Opened => 1,
        ClientState::Reset => 2,
        _ => 3,
    }
}

/// Returns how many clients are counted in a column.
fn count_in(sides: &[Side], number: u8) -> usize
    ensures { result ≡ count_by (λ side. column side.client.state == number) sides.now }
{
    sides
        .iter()
        .filter(|side| column(side.client.state) == number)
        .count()
}

/// Returns whether a stale datagram was delivered from a client or to it.
fn is_stale(side: &Side) -> bool
    ensures { result ≡ not (is_none side.now.first_stale) }
{
    !side.first_stale.is_none()
}

/// Returns how many clients are not clean.
fn stale(sides: &[Side]) -> usize
    ensures { result ≡ count_by (λ side. not (is_none side.first_stale)) sides.now }
{
    sides.iter().filter(|side| is_stale(side)).count()
}

/// Returns how many bytes of their pages the clients accepted in all.
fn bytes_taken(sides: &[Side]) -> u128
    ensures { result ≡ sum_by (λ side. length side.received) sides.now }
{
    let mut total: u128 = 0;
    for side in sides.iter() {
        total += side.received.len() as u128;
    }
    total
}

/// Returns how many datagrams are retransmissions.
fn again(sent: &[Sent]) -> usize
    ensures { result ≡ count_by (λ e. e.again) sent.now }
{
    sent.iter().filter(|e| e.again).count()
}
