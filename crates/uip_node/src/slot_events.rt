//! The events of the connection in one slot of the table.

ghost use Rattle.std.specs.Prelude.{None, ◌≡◌, ◌<◌, ◌≤◌, true, false, Some, length, slice_get};
ghost use Rattle.app_events.specs.Prelude.{is_live};
ghost use Rattle.tcp_machine.specs.Prelude.{ask_prepared, CanBeAsked, IsAnswer, StepFits, on_segment, on_tick, plain};
ghost use Rattle.uip_node.specs.Prelude.{sockets_of, OpensIn, PreparesIn, SettlesIn, SpeaksIn, StaysPrepared, TakesIn};
ghost use Rattle.uip_node.specs.Prelude.{AllWellFormed, AllSound, IsIn, NoneAt, OthersRest, TookStep, live_rows};

use crate::listing::rows_of;
use crate::output::speak;
use app_events::{App, Now, RowList};
use packet_buffer::Packet;
use tcp_machine::{Step, accept, ask_prepared, is_due, on_segment, on_tick, prepare};
use tcp_segment::Segment;
use tcp_table::{Conn, Table};
use uip_wire::{Addr, LARGEST_DATAGRAM};

/// Delivers a segment to the connection in a slot, which is not CLOSED.
pub(crate) fn take_segment<A: App>(
    table: &mut Table<A>,
    shared: &mut A::Shared,
    slot: usize,
    seg: &Segment,
    piece: &[u8],
) -> Step
    requires within { slot < length table.old.conns }
    requires live { IsIn table.old.conns slot (λ c. is_live c.state ≡ true) }
    requires kept { AllWellFormed A.App (A.config shared.old) table.old.conns }
    requires short { length piece.now ≤ 1500 }
    ensures same { A.config shared.new ≡ A.config shared.old }
    ensures took { TookStep A.App (A.config shared.old) slot table.old table.new result }
    ensures meets { TakesIn A.App (A.config shared.old) slot
        (λ a. on_segment (A.app_spec (A.config shared.old)) a (A.numbers shared.old) (plain seg.now piece.now))
        table.old.conns table.new.conns (A.numbers shared.new) result }
{
    let conn = &mut table.conns[slot];
    on_segment(conn, shared, seg, piece)
}

/// Makes the periodic call of the connection in a slot, which is not CLOSED.
pub(crate) fn take_tick<A: App>(table: &mut Table<A>, shared: &mut A::Shared, slot: usize) -> Step
    requires within { slot < length table.old.conns }
    requires live { IsIn table.old.conns slot (λ c. is_live c.state ≡ true) }
    requires kept { AllWellFormed A.App (A.config shared.old) table.old.conns }
    ensures same { A.config shared.new ≡ A.config shared.old }
    ensures took { TookStep A.App (A.config shared.old) slot table.old table.new result }
    ensures meets { TakesIn A.App (A.config shared.old) slot
        (λ a. on_tick (A.app_spec (A.config shared.old)) a (A.numbers shared.old))
        table.old.conns table.new.conns (A.numbers shared.new) result }
{
    let conn = &mut table.conns[slot];
    on_tick(conn, shared)
}

/// Returns whether the application of the connection in a slot may need a capture before it is asked.
fn is_due_in<A: App>(table: &Table<A>, shared: &A::Shared, slot: usize) -> bool
    requires within { slot < length table.now.conns }
    requires asked { IsIn table.now.conns slot CanBeAsked }
    requires sound { AllSound A.App (A.config shared.now) table.now.conns }
    ensures not_due { result ≡ false → StaysPrepared A.App (A.config shared.now) slot table.now.conns (A.numbers shared.now) }
{
    let conn = &table.conns[slot];
    is_due(conn, shared)
}

/// Lets the application of the connection in a slot take a capture from a `Now`.
fn prepare_in<A: App>(table: &mut Table<A>, shared: &A::Shared, slot: usize, now: &Now)
    requires within { slot < length table.old.conns }
    requires asked { IsIn table.old.conns slot CanBeAsked }
    requires sound { AllSound A.App (A.config shared.now) table.old.conns }
    requires others { OthersRest slot table.old.conns }
    ensures long { length table.new.conns ≡ length table.old.conns }
    ensures iss { table.new.iss ≡ table.old.iss }
    ensures asked { IsIn table.new.conns slot CanBeAsked }
    ensures sound { AllSound A.App (A.config shared.now) table.new.conns }
    ensures others { OthersRest slot table.new.conns }
    ensures meets { PreparesIn A.App (A.config shared.now) slot now.now table.old.conns table.new.conns (A.numbers shared.now) }
{
    let conn = &mut table.conns[slot];
    prepare(conn, shared, now);
}

/// Lets the application of the connection in a slot take a capture, if it needs one. The `Now` is made only then.
/// [add: counter] The length of the array, here and below.
fn ready_in<A: App>(
    table: &mut Table<A>,
    shared: &A::Shared,
    slot: usize,
    ticks: u32,
    net: &[u32; 20],
)
    requires within { slot < length table.old.conns }
    requires asked { IsIn table.old.conns slot CanBeAsked }
    requires sound { AllSound A.App (A.config shared.now) table.old.conns }
    requires others { OthersRest slot table.old.conns }
    ensures long { length table.new.conns ≡ length table.old.conns }
    ensures iss { table.new.iss ≡ table.old.iss }
    ensures asked { IsIn table.new.conns slot CanBeAsked }
    ensures sound { AllSound A.App (A.config shared.now) table.new.conns }
    ensures others { OthersRest slot table.new.conns }
    ensures meets { PreparesIn A.App (A.config shared.now) slot
        (record { ticks = ticks; net = net.now; rows = live_rows 0 table.old.conns })
        table.old.conns table.new.conns (A.numbers shared.now) }
{
    if !is_due_in(table, shared, slot) {
        return;
    }
    let rows = rows_in(table);
    let now = Now {
        ticks,
        net: *net,
        rows,
    };
    prepare_in(table, shared, slot, &now);
}

/// Asks the application of the connection in a slot, which has taken the capture that it needs, what to send.
fn ask_in<A: App>(table: &mut Table<A>, shared: &A::Shared, slot: usize, fresh: bool) -> Step
    requires within { slot < length table.old.conns }
    requires asked { IsIn table.old.conns slot CanBeAsked }
    requires sound { AllSound A.App (A.config shared.now) table.old.conns }
    requires others { OthersRest slot table.old.conns }
    ensures long { length table.new.conns ≡ length table.old.conns }
    ensures iss { table.new.iss ≡ table.old.iss }
    ensures kept { AllWellFormed A.App (A.config shared.now) table.new.conns }
    ensures answer { IsAnswer result }
    ensures text { IsIn table.new.conns slot (λ c. StepFits c result) }
    ensures meets { TakesIn A.App (A.config shared.now) slot
        (λ a. ask_prepared (A.app_spec (A.config shared.now)) fresh a (A.numbers shared.now))
        table.old.conns table.new.conns (A.numbers shared.now) result }
{
    let conn = &mut table.conns[slot];
    ask_prepared(conn, shared, fresh)
}

/// Lets the application of the connection in a slot take a capture, if it needs one, and asks it what to send.
fn ask_ready<A: App>(
    table: &mut Table<A>,
    shared: &A::Shared,
    slot: usize,
    fresh: bool,
    ticks: u32,
    net: &[u32; 20],
) -> Step
    requires within { slot < length table.old.conns }
    requires asked { IsIn table.old.conns slot CanBeAsked }
    requires sound { AllSound A.App (A.config shared.now) table.old.conns }
    requires others { OthersRest slot table.old.conns }
    ensures long { length table.new.conns ≡ length table.old.conns }
    ensures iss { table.new.iss ≡ table.old.iss }
    ensures kept { AllWellFormed A.App (A.config shared.now) table.new.conns }
    ensures answer { IsAnswer result }
    ensures text { IsIn table.new.conns slot (λ c. StepFits c result) }
    ensures meets { SettlesIn A.App (A.config shared.now) slot ticks net.now
        table.old.conns table.new.conns (A.numbers shared.now) (Step.Ask fresh) result }
{
    ready_in(table, shared, slot, ticks, net);
    ask_in(table, shared, slot, fresh)
}

/// Asks the application of the connection in a slot, if the step demands it. `ticks` and `net` are those of the node at this event.
#[inline(always)]
pub(crate) fn ask_app<A: App>(
    table: &mut Table<A>,
    shared: &A::Shared,
    slot: usize,
    step: Step,
    ticks: u32,
    net: &[u32; 20],
) -> Step
    requires within { slot < length table.old.conns }
    requires fits { IsIn table.old.conns slot (λ c. StepFits c step) }
    requires sound { AllSound A.App (A.config shared.now) table.old.conns }
    requires others { OthersRest slot table.old.conns }
    ensures long { length table.new.conns ≡ length table.old.conns }
    ensures iss { table.new.iss ≡ table.old.iss }
    ensures kept { AllWellFormed A.App (A.config shared.now) table.new.conns }
    ensures answer { IsAnswer result }
    ensures text { IsIn table.new.conns slot (λ c. StepFits c result) }
    ensures meets { SettlesIn A.App (A.config shared.now) slot ticks net.now
        table.old.conns table.new.conns (A.numbers shared.now) step result }
{
    match step {
        Step::Ask { fresh } => ask_ready(table, shared, slot, fresh, ticks, net),
        other => other,
    }
}

/// Returns the rows of a table.
pub(crate) fn rows_in<A: App>(table: &Table<A>) -> RowList
    ensures { result ≡ live_rows 0 table.now.conns }
{
    rows_of(&table.conns)
}

/// Opens a connection for a plain SYN in a slot that is CLOSED or in TIME-WAIT.
pub(crate) fn open_in<A: App>(table: &mut Table<A>, slot: usize, peer: Addr, seg: &Segment) -> Step
    requires within { slot < length table.old.conns }
    requires free { NoneAt peer seg.now.from seg.now.to table.old.conns }
    ensures long { length table.new.conns ≡ length table.old.conns }
    ensures iss { table.new.iss ≡ table.old.iss }
    ensures fits { IsIn table.new.conns slot (λ c. StepFits c result) }
    ensures step { result ≡ Step.SynAck false }
    ensures kept { (k : A.Config) → AllWellFormed A.App k table.old.conns → AllWellFormed A.App k table.new.conns }
    ensures represented { OpensIn A.App slot table.old.iss (sockets_of peer seg.now) seg.now table.old.conns table.new.conns }
{
    let iss = table.iss;
    let conn = &mut table.conns[slot];
    accept(conn, peer, seg, iss)
}

/// Writes the segment of a step of the connection in a slot, as `speak` does.
pub(crate) fn speak_in<A: App>(
    packet: &mut Packet,
    table: &Table<A>,
    shared: &A::Shared,
    slot: usize,
    step: Step,
    own: Addr,
    id: u16,
) -> Option<usize>
    requires size { length packet.old.area ≡ LARGEST_DATAGRAM }
    requires within { slot < length table.now.conns }
    requires kept { AllWellFormed A.App (A.config shared.now) table.now.conns }
    requires fits { IsIn table.now.conns slot (λ c. StepFits c step) }
    requires answer { IsAnswer step }
    ensures size { length packet.new.area ≡ LARGEST_DATAGRAM }
    ensures quiet { result ≡ None → packet.new ≡ packet.old }
    ensures spoken { SpeaksIn A.App (A.config shared.now) slot own id table.now.conns step result packet.new }
{
    let conn = &table.conns[slot];
    speak(packet, conn, shared, step, own, id)
}

/// Returns whether the connection in a slot is not CLOSED.
pub(crate) fn is_live_in<A: App>(table: &Table<A>, slot: usize) -> bool
    requires within { slot < length table.now.conns }
    ensures { IsIn table.now.conns slot (λ c. result ≡ is_live c.state) }
{
    table.conns[slot].is_live()
}

/// Returns the connection in a slot.
pub(crate) fn conn_in<A: App>(table: &Table<A>, slot: usize) -> &Conn<A>
    requires { slot < 10 }
    ensures { slice_get table.now.conns slot ≡ Some result.now }
{
    &table.conns[slot]
}

/// Returns the number of slots of a table.
pub(crate) fn count_slots<A: App>(table: &Table<A>) -> usize
    ensures ten { result ≡ 10 }
    ensures all { length table.now.conns ≡ 10 }
{
    table.conns.len()
}
