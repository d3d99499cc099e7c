//! The program's line and its output, over any reader and any writer, and a run over them.

ghost use Rattle.std.specs.Prelude.{◌≡◌, ◌≢◌, ◌<◌, length, IfOk, true, false};
ghost use Rattle.uip_edge.specs.Prelude.{HasCause, items_of, CountFits, Consumes, IsAtEnd};
ghost use Rattle.uip_edge.specs.declared.got.Got.TheVariants.{End, Quiet};
ghost use Rattle.uipd.specs.Reporting.{GivesRead, IsGot, items_left};

use crate::run_told::run_told;
use crate::status::Status;
use crate::words::ends_in_tty;
use std::alloc::Global;
use std::io;
use std::io::{Read, Write};
use uip_edge::{Failed, Got, Link, Shelf, Sink};

/// A line that is read from any reader. An empty read is its end, or with `tty` a silence, as a terminal returns after a time
/// without a byte.
#[derive(Drop)]
pub struct ReaderLink<R: Read> {
    inner: R,
    tty: bool,
    faults: u64,
}

impl<R: Read> ReaderLink<R> {
    /// Wraps the reader as it is: nothing is read.
    pub fn new(inner: R, tty: bool) -> ReaderLink<R>
        ensures inner { result.inner ≡ inner }
        ensures tty { result.tty ≡ tty }
        ensures faults { result.faults ≡ 0 }
    {
        ReaderLink {
            inner,
            tty,
            faults: 0,
        }
    }
}

/// Returns what a read gives.
fn got_of(read: io::Result<usize>, tty: bool) -> Result<Got, Failed>
    ensures { IsGot tty read result }
{
    match read {
        Ok(0) if tty => Ok(Got::Quiet),
        Ok(0) => Ok(Got::End),
        Ok(count) => Ok(Got::Bytes(count)),
        Err(_) => Err(Failed),
    }
}

impl<R: Read> Link for ReaderLink<R> {
    ghost coming = { λ link. items_left link.tty (R.remaining link.inner) };

    ghost faults = { λ link. link.faults };

    fn next(&mut self, buf: &mut [u8]) -> Result<Got, Failed>
        requires { 0 < length buf.old }
        ensures count { CountFits result (length buf.new) }
        ensures items { Consumes (items_left self.old.tty (R.remaining self.old.inner))
            (items_left self.new.tty (R.remaining self.new.inner)) (items_of result buf.new) }
        ensures end { IsAtEnd result (items_left self.old.tty (R.remaining self.old.inner)) }
        ensures cause { HasCause self.old.faults self.new.faults result }

        // An empty read is a silence with `tty`, and else the end.
        ensures silence { self.old.tty ≡ true → IfOk result (λ got. got ≢ End) }
        ensures no_silence { self.old.tty ≡ false → IfOk result (λ got. got ≢ Quiet) }
        ensures kept { self.new.tty ≡ self.old.tty }

        // With `tty` too it returns what the reader lost.
        ensures reads { GivesRead (R.remaining self.old.inner) (R.remaining self.new.inner) result buf.new }
    {
        let got = got_of(self.inner.read(buf), self.tty);
        if got.is_err() {
            self.faults = self.faults.saturating_add(1);
        }
        got
    }
}

/// A sink over any writer. A write that consumes nothing of a piece is a fault.
#[derive(Drop)]
pub struct WriterSink<W: Write> {
    inner: W,
    faults: u64,
}

impl<W: Write> WriterSink<W> {
    /// Wraps the writer as it is: nothing is written.
    pub fn new(inner: W) -> WriterSink<W>
        ensures inner { result.inner ≡ inner }
        ensures faults { result.faults ≡ 0 }
    {
        WriterSink { inner, faults: 0 }
    }
}

impl<W: Write> Sink for WriterSink<W> {
    ghost written = { λ sink. W.contents sink.inner };

    ghost faults = { λ sink. sink.faults };

    fn write(&mut self, piece: &[u8]) -> Result<usize, Failed> {
        match self.inner.write(piece) {
            Ok(count) if count > 0 || piece.is_empty() => Ok(count),
            _ => {
                self.faults = self.faults.saturating_add(1);
                Err(Failed)
            }
        }
    }
}

/// Does what the words ask for, over a line that is read and an output that is written. What is reported beside the output is
/// written to `errors`. The last word states whether the reader is a terminal.
pub fn run_over<H: Shelf, R: Read + Drop, W: Write + Drop, E: Write + Drop>(
    alloc: Global,
    words: &[String],
    shelf: &mut H,
    input: R,
    output: W,
    errors: E,
) -> Status {
    let mut link = ReaderLink::new(input, ends_in_tty(words));
    let mut out = WriterSink::new(output);
    let mut tell = WriterSink::new(errors);
    run_told(alloc, words, shelf, &mut link, &mut out, &mut tell)
}
