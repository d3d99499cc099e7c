//! The report of a replay: each client, and if all is shown each datagram that was sent. It is written to a sink line by line,
//! and no call is passed an allocator.

ghost use Rattle.std.specs.Prelude.{ℕ, Bool, OnErr, OnOk, length, map};
ghost use Rattle.std.specs.Io.KnownBytes.{Appends};
ghost use Rattle.app_events.specs.Prelude.{AppSpec};
ghost use Rattle.uip_edge.specs.Prelude.{HasCause, AppendsPrefix};
ghost use Rattle.link_world.specs.World.{World as PlainWorld};
ghost use Rattle.link_replay.specs.Prelude.{IsAt, WorldRepresents, EndsReport, code_side_shown, Wrote};
ghost use Rattle.link_replay.specs.Report.{end_of_report, report as report_of};

use crate::report::client_lines::last_line;
use crate::report::clients::write_clients;
use crate::report::datagrams::write_shown;
use crate::report::hex_text::write_word;
use crate::world::WorldOf;
use app_events::App;
use uip_edge::{Failed, Sink};

pub(crate) mod client_lines;
pub(crate) mod clients;
pub(crate) mod datagram_kind;
pub(crate) mod datagram_line;
pub(crate) mod datagrams;
pub(crate) mod hex_text;
pub(crate) mod kind;
pub(crate) mod line;
pub(crate) mod summary;
pub(crate) mod tally;

impl<A: App> WorldOf<A> {
    /// Writes the report of a world, and if all is shown a line for each datagram and the bytes that each client received.
    /// After a failed call a prefix of the report is written.
    pub fn report<K: Sink>(&self, show: bool, sink: &mut K) -> Result<(), Failed>
        ensures ok { OnOk result ((m : AppSpec) (served : ℕ → Bool) (w : PlainWorld) → WorldRepresents A.App self.now w → IsAt m served w
            → Appends (K.written sink.old) (K.written sink.new) (report_of show w)) }
        ensures err { OnErr result ((m : AppSpec) (served : ℕ → Bool) (w : PlainWorld) → WorldRepresents A.App self.now w → IsAt m served w
            → AppendsPrefix (K.written sink.old) (K.written sink.new) (report_of show w)) }
        ensures shows { OnOk result (EndsReport show (K.written sink.old) (K.written sink.new)
            (end_of_report show (map code_side_shown self.now.link.sides) self.now.node.counts.ticks (length self.now.link.sent))) }
        ensures cause { HasCause (K.faults sink.old) (K.faults sink.new) result }
    {
        write_report(self, show, sink)
    }
}

/// Writes the report of a world.
fn write_report<A: App, K: Sink>(world: &WorldOf<A>, show: bool, sink: &mut K) -> Result<(), Failed>
    ensures wrote { (m : AppSpec) (served : ℕ → Bool) (w : PlainWorld) → WorldRepresents A.App world.now w → IsAt m served w
        → Wrote (K.written sink.old) (K.written sink.new) result (report_of show w) }
    ensures shows { OnOk result (EndsReport show (K.written sink.old) (K.written sink.new)
        (end_of_report show (map code_side_shown world.now.link.sides) world.now.node.counts.ticks (length world.now.link.sent))) }
    ensures cause { HasCause (K.faults sink.old) (K.faults sink.new) result }
{
    let sides = world.sides.as_slice();
    let sent = world.sent.as_slice();
    write_shown(show, world.node.addr(), sides, sent, sink)?;
    write_clients(show, sides, sink)?;
    let line = last_line(world.node.ticks(), sent.len());
    write_word(line.bytes(), sink)
}
