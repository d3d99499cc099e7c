//! The reader of a serial line.

ghost use Rattle.std.specs.Prelude.{◌≡◌, ◌<◌, ◌≤◌, ◌+◌, ◌^◌, [], List, ℕ, Option, length, map, true, OnOk, OnErr};
ghost use Rattle.std.specs.Io.KnownBytes.{Appends};
ghost use Rattle.uip_edge.specs.Prelude.{HasCause, BreaksOff};
ghost use Rattle.uip_slip.specs.Prelude.{Leaves, reported_by, Datagram, Overlong};
ghost use Rattle.trace.specs.Seen.{seen_at};
ghost use Rattle.trace.specs.Watching.{IsWatched, frame_text, texts_from};

use crate::area::Area;
use crate::dump_line::{put_datagram_line, put_overlong_line};
use crate::form::Form;
use crate::line_reader::LineReader;
use crate::record::put_record;
use uip_edge::{Failed, Sink};
use uip_slip::{Decoder, Fed};
use uip_wire::LARGEST_DATAGRAM;

/// A serial line, as far as it was read.
#[derive(Drop)]
pub(crate) struct Watch {
    pub form: Form,
    pub decoder: Decoder,
    /// The number of frames.
    pub frames: u64,
    /// The number of silences.
    pub silences: u64,
    area: Area,
}

impl Watch {
    /// Returns a reader that has read nothing.
    pub fn new(form: Form) -> Watch
        ensures counted { result.frames + result.silences ≡ 0 }
        ensures watched { (start : Option (List ℕ)) → IsWatched (form, start) [] start result }
    {
        Watch {
            form,
            decoder: Decoder::new(),
            frames: 0,
            silences: 0,
            area: Area::new(),
        }
    }

    /// Writes the buffer, if it is not empty.
    fn write_area<K: Sink>(&self, sink: &mut K) -> Result<(), Failed>
        ensures whole { OnOk result (Appends (K.written sink.old) (K.written sink.new) self.now.area) }
        ensures broke { OnErr result (BreaksOff [] self.now.area (K.written sink.old) (K.written sink.new)) }
        ensures cause { HasCause (K.faults sink.old) (K.faults sink.new) result }
    {
        let text = self.area.bytes();
        if text.is_empty() {
            return Ok(());
        }
        sink.write_whole(text)
    }

    /// Makes what is written of the decoded frame, if there is one.
    fn put_frame(&mut self, fed: Fed)
        requires frames { self.old.frames + 1 < 2 ^ 64 }
        requires empty { self.old.area ≡ [] }
        requires leaves { Leaves fed self.old.decoder }
        ensures { self.new ≡ record self.old {
          frames = self.old.frames + length (reported_by fed self.old.decoder);
          area = texts_from self.old.form (self.old.frames + 1) (map (seen_at self.old.silences) (reported_by fed self.old.decoder));
        } }
    {
        match fed {
            Fed::More => {}
            Fed::Overlong => self.put_overlong(),
            Fed::Datagram(count) => self.put_datagram(count),
        }
    }

    /// Makes what is written of an overlong frame.
    fn put_overlong(&mut self)
        requires frames { self.old.frames + 1 < 2 ^ 64 }
        requires empty { self.old.area ≡ [] }
        ensures { self.new ≡ record self.old {
          frames = self.old.frames + 1;
          area = frame_text self.old.form (self.old.frames + 1, seen_at self.old.silences Overlong);
        } }
    {
        self.frames += 1;
        match self.form {
            Form::Dump => put_overlong_line(&mut self.area, self.frames),
            Form::Capture => {}
        }
    }

    /// Makes what is written of a datagram.
    fn put_datagram(&mut self, count: usize)
        requires frames { self.old.frames + 1 < 2 ^ 64 }
        requires empty { self.old.area ≡ [] }
        requires reported { self.old.decoder.reported ≡ true }
        requires count { count ≡ length self.old.decoder.bytes }
        requires most { count ≤ LARGEST_DATAGRAM }
        ensures { self.new ≡ record self.old {
          frames = self.old.frames + 1;
          area = frame_text self.old.form (self.old.frames + 1, seen_at self.old.silences (Datagram self.old.decoder.bytes));
        } }
    {
        self.frames += 1;
        let datagram = self.decoder.bytes(count);
        match self.form {
            Form::Dump => put_datagram_line(&mut self.area, self.frames, datagram),
            Form::Capture => put_record(&mut self.area, self.silences, datagram),
        }
    }
}

impl LineReader for Watch {
    ghost use Rattle.std.specs.Prelude.{◌+◌, List, ℕ, Option, ⊤};
    ghost use Rattle.trace.specs.Watching.{IsWatched, BrokeWatch};
    ghost use Rattle.trace.specs.declared.form.Form.{Form as AnyForm};

    type Stop = Failed;

    ghost Config = { AnyForm × Option (List ℕ) };

    ghost ready = { λ watch. ⊤ };

    ghost counted = { λ watch. watch.frames + watch.silences };

    ghost took = { λ watch k before now. IsWatched k before now watch };

    ghost stopped = { λ watch k stop before bytes faults now. BrokeWatch k before bytes faults now };

    fn silence(&mut self) {
        self.silences += 1;
    }

    fn take_prefix<K: Sink>(&mut self, bytes: &[u8], sink: &mut K) -> Result<usize, Failed> {
        let run = self.decoder.feed_run(bytes);
        self.area.clear();
        self.put_frame(run.fed);
        self.write_area(sink)?;
        Ok(run.count)
    }
}
