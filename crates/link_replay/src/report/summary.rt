//! The summary of a replay, in one line.

ghost use Rattle.std.specs.Prelude.{◌≡◌, OnErr, OnOk, map};
ghost use Rattle.std.specs.Io.KnownBytes.{Appends};
ghost use Rattle.uip_edge.specs.Prelude.{HasCause, AppendsPrefix};
ghost use Rattle.link_world.specs.World.{World as PlainWorld};
ghost use Rattle.link_replay.specs.Prelude.{WorldRepresents, code_side_shown, summary_of, tally_line, tally_of, Wrote};

use crate::report::line::Line;
use crate::report::tally::{Tally, count_up};
use crate::world::WorldOf;
use app_events::App;
use uip_edge::{Failed, Sink};

impl<A: App> WorldOf<A> {
    /// Writes the summary of a replay in one line. It is passed no allocator. After a failed call a prefix of the line is
    /// written.
    pub fn summary<K: Sink>(&self, sink: &mut K) -> Result<(), Failed>
        ensures ok { OnOk result ((w : PlainWorld) → WorldRepresents A.App self.now w
            → Appends (K.written sink.old) (K.written sink.new) (summary_of w)) }
        ensures err { OnErr result ((w : PlainWorld) → WorldRepresents A.App self.now w
            → AppendsPrefix (K.written sink.old) (K.written sink.new) (summary_of w)) }
        ensures shows { Wrote (K.written sink.old) (K.written sink.new) result
            (tally_line (tally_of (map code_side_shown self.now.link.sides) (map (λ e. e.again) self.now.link.sent))) }
        ensures cause { HasCause (K.faults sink.old) (K.faults sink.new) result }
    {
        let tally = count_up(self.sides.as_slice(), self.sent.as_slice());
        let line = line_of(&tally);
        sink.write_whole(line.bytes())
    }
}

/// Makes the line of a tally.
fn line_of(tally: &Tally) -> Line
    ensures { result ≡ tally_line tally.now }
{
    let mut line = Line::new();
    line.put(b"closed ");
    line.put_number(tally.closed as u64);
    line.put(b" open ");
    line.put_number(tally.opened as u64);
    line.put(b" reset ");
    line.put_number(tally.reset as u64);
    line.put(b" other ");
    line.put_number(tally.other as u64);
    line.put(b" stale ");
    line.put_number(tally.stale as u64);
    line.put(b" bytes ");
    line.put_total(tally.bytes);
    line.put(b" datagrams ");
    line.put_number(tally.datagrams as u64);
    line.put(b" again ");
    line.put_number(tally.again as u64);
    line.put(b"\n");
    line
}
