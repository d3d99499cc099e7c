//! Reads a capture file, part by part.

ghost use Rattle.std.specs.Prelude.{◌≡◌, ◌<◌, ◌≤◌, ◌+◌, ◌^◌, ◌++◌, [], List, ℕ, Option, IfErr, OnErr, OnOk};
ghost use Rattle.uip_edge.specs.Prelude.{HasCause};
ghost use Rattle.trace.specs.Gathering.{BrokeOff, HasFault, HasReadTo, IsFullIn, IsOpenIn, KeepsRead, StopBy, StopsAt, end_at};
ghost use Rattle.trace.specs.declared.reader.Stop.TheVariants.{Bad as BadStop, WriteFault};
ghost use Rattle.trace.specs.declared.slip_end.SlipEnd.TheVariants.{Bad as BadEnd};
ghost use Rattle.trace.specs.declared.stage.Stage.TheVariants as stages;

use crate::area::Area;
use crate::byte_order::ByteOrder;
use crate::fields::{field, order_of};
use crate::line_reader::LineReader;
use crate::slip_end::{CaptureWhy, SlipEnd};
use crate::stage::Stage;
use uip_edge::{Failed, Sink};
use uip_slip::Encoder;
use uip_wire::LARGEST_DATAGRAM;

/// The length of a capture file's header, in bytes.
const HEADER_LEN: usize = 24;

/// The length of a record's times and lengths, in bytes.
const HEAD_LEN: usize = 16;

/// Why the reading stops.
#[derive(Clone, Copy, Debug, PartialEq, Eq)]
pub(crate) enum Stop {
    WriteFault,
    Bad(CaptureWhy),
}

impl From<CaptureWhy> for Stop {
    ghost from_gives = { λ why stop. stop ≡ BadStop why };

    fn from(why: CaptureWhy) -> Stop {
        Stop::Bad(why)
    }
}

impl From<Failed> for Stop {
    ghost from_gives = { λ _ stop. stop ≡ WriteFault };

    fn from(_failed: Failed) -> Stop {
        Stop::WriteFault
    }
}

/// A capture file, as far as it was read.
#[derive(Drop)]
pub(crate) struct Reader {
    pub stage: Stage,
    /// The number of the next record, counted from 1; the header has number 0.
    pub number: u64,
    /// What was read of the header or of a record.
    pub part: Area,
    /// The length at which the part is complete, in bytes.
    pub want: usize,
    encoder: Encoder,
}

impl Reader {
    /// Returns a reader that has read nothing.
    pub fn new() -> Reader
        ensures open { IsOpenIn result }
        ensures number { result.number ≡ 0 }
        ensures at { (start : Option (List ℕ)) → HasReadTo start start [] result }
    {
        Reader {
            stage: Stage::Header,
            number: 0,
            part: Area::new(),
            want: HEADER_LEN,
            encoder: Encoder::new(),
        }
    }

    /// Returns the end of the call if the link is at its end.
    pub fn end(&self) -> SlipEnd
        ensures { result ≡ end_at self.now.stage self.now.part self.now.number }
    {
        match self.stage {
            Stage::Head(_) if self.part.len() == 0 => SlipEnd::End,
            _ => self.bad(CaptureWhy::Cut),
        }
    }

    /// Returns the end of the call if the header or the record being read has a fault.
    pub fn bad(&self, why: CaptureWhy) -> SlipEnd
        ensures { result ≡ BadEnd self.now.number why }
    {
        SlipEnd::Bad {
            number: self.number,
            why,
        }
    }

    /// Handles a part that is complete.
    fn look<K: Sink>(&mut self, sink: &mut K) -> Result<(), Stop>
        requires full { IsFullIn self.old }
        requires number { self.old.number + 1 < 2 ^ 64 }
        ensures open { OnOk result (IsOpenIn self.new) }
        ensures number { self.new.number ≤ self.old.number + 1 }
        ensures at { OnOk result ((start : Option (List ℕ)) (bytes : List ℕ)
            → HasReadTo start (K.written sink.old) bytes self.old
            → HasReadTo start (K.written sink.new) bytes self.new) }
        ensures stop { IfErr result (λ stop. (start : Option (List ℕ)) (bytes more : List ℕ)
            → HasReadTo start (K.written sink.old) bytes self.old
            → StopsAt stop start (K.written sink.new) (bytes ++ more) self.new.number) }
        ensures calm { OnOk result (K.faults sink.new ≡ K.faults sink.old) }
        ensures by { IfErr result (λ stop. StopBy stop (K.faults sink.old) (K.faults sink.new)) }
    {
        match self.stage {
            Stage::Header => Ok(self.look_at_header()?),
            Stage::Head(order) => Ok(self.look_at_head(order)?),
            Stage::Body(order) => Ok(self.look_at_body(order, sink)?),
        }
    }

    /// Handles the whole header.
    fn look_at_header(&mut self) -> Result<(), CaptureWhy>
        requires full { IsFullIn self.old }
        requires number { self.old.number + 1 < 2 ^ 64 }
        requires stage { self.old.stage ≡ stages.Header }
        ensures open { OnOk result (IsOpenIn self.new) }
        ensures number { self.new.number ≤ self.old.number + 1 }
        ensures at { OnOk result (KeepsRead self.old self.new) }
        ensures fault { IfErr result (HasFault self.old self.new.number) }
    {
        match order_of(self.part.bytes()) {
            None => Err(CaptureWhy::Head),
            Some(order) => {
                self.start_record(order);
                Ok(())
            }
        }
    }

    /// Handles the times and lengths of a record.
    fn look_at_head(&mut self, order: ByteOrder) -> Result<(), CaptureWhy>
        requires full { IsFullIn self.old }
        requires number { self.old.number + 1 < 2 ^ 64 }
        requires stage { self.old.stage ≡ stages.Head order }
        ensures open { OnOk result (IsOpenIn self.new) }
        ensures number { self.new.number ≤ self.old.number + 1 }
        ensures at { OnOk result (KeepsRead self.old self.new) }
        ensures fault { IfErr result (HasFault self.old self.new.number) }
    {
        let len = field(order, self.part.bytes(), 8) as usize;
        if len > LARGEST_DATAGRAM {
            return Err(CaptureWhy::Length);
        }
        if len == 0 {
            self.start_record(order);
            return Ok(());
        }
        self.want = HEAD_LEN + len;
        self.stage = Stage::Body(order);
        Ok(())
    }

    /// Handles the whole datagram of a record.
    fn look_at_body<K: Sink>(&mut self, order: ByteOrder, sink: &mut K) -> Result<(), Failed>
        requires full { IsFullIn self.old }
        requires number { self.old.number + 1 < 2 ^ 64 }
        requires stage { self.old.stage ≡ stages.Body order }
        ensures open { OnOk result (IsOpenIn self.new) }
        ensures number { self.new.number ≤ self.old.number + 1 }
        ensures at { OnOk result ((start : Option (List ℕ)) (bytes : List ℕ)
            → HasReadTo start (K.written sink.old) bytes self.old
            → HasReadTo start (K.written sink.new) bytes self.new) }
        ensures broke { OnErr result ((start : Option (List ℕ)) (bytes more : List ℕ)
            → HasReadTo start (K.written sink.old) bytes self.old
            → BrokeOff start (K.written sink.new) (bytes ++ more)) }
        ensures cause { HasCause (K.faults sink.old) (K.faults sink.new) result }
    {
        self.encoder.encode(&self.part.bytes()[HEAD_LEN..], sink)?;
        self.start_record(order);
        Ok(())
    }

    /// Begins the next record.
    fn start_record(&mut self, order: ByteOrder)
        requires { self.old.number + 1 < 2 ^ 64 }
        ensures { self.new ≡ record self.old { stage = stages.Head order; number = self.old.number + 1; part = []; want = 16 } }
    {
        self.number += 1;
        self.part.clear();
        self.want = HEAD_LEN;
        self.stage = Stage::Head(order);
    }
}

impl LineReader for Reader {
    ghost use Rattle.std.specs.Prelude.{List, ℕ, Option};
    ghost use Rattle.uip_edge.specs.Coming.{bytes_among};
    ghost use Rattle.trace.specs.Gathering.{HasReadTo, IsOpenIn, Stopped};

    type Stop = Stop;

    ghost Config = { Option (List ℕ) };

    ghost ready = { λ reader. IsOpenIn reader };

    ghost counted = { λ reader. reader.number };

    ghost took = { λ reader start before now. HasReadTo start now (bytes_among before) reader };

    ghost stopped = { λ reader start stop before bytes faults now. Stopped stop start before bytes faults now reader.number };

    /// Ignores a silence.
    fn silence(&mut self) {}

    /// Consumes as many bytes as the part still needs.
    fn take_prefix<K: Sink>(&mut self, bytes: &[u8], sink: &mut K) -> Result<usize, Stop> {
        let count = bytes.len().min(self.want - self.part.len());
        self.part.put(&bytes[..count]);
        if self.part.len() == self.want {
            self.look(sink)?;
        }
        Ok(count)
    }
}
