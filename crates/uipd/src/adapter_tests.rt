// The adapters over readers and writers in memory, and over a reader that fails; runs over them.
use crate::adapters::{ReaderLink, WriterSink, run_over};
use crate::harness::{both_of, words_of};
use crate::resolve_tests::{QUERY, REPLY, WORDS};
use crate::status::Status;
use crate::tests::{PING, PONG};
use std::alloc::Global;
use std::io;
use std::io::Read;
use std::test::Fail;
use uip_edge::{Got, Link, MemShelf, Sink};

/// A reader that returns one byte and then fails at every call.
#[derive(Drop)]
struct Failing {
    given: bool,
}

impl Read for Failing {
    fn read(&mut self, buf: &mut [u8]) -> io::Result<usize> {
        if self.given || buf.is_empty() {
            return Err(io::Error::from(io::ErrorKind::TimedOut));
        }
        self.given = true;
        buf[0] = 7;
        Ok(1)
    }
}

/// A reader that returns nothing at its first call, fails at its second, and then returns a byte at each.
#[derive(Drop)]
struct Halting {
    calls: u8,
}

impl Read for Halting {
    fn read(&mut self, buf: &mut [u8]) -> io::Result<usize> {
        self.calls = self.calls.saturating_add(1);
        if self.calls == 1 || buf.is_empty() {
            return Ok(0);
        }
        if self.calls == 2 {
            return Err(io::Error::from(io::ErrorKind::TimedOut));
        }
        buf[0] = 7;
        Ok(1)
    }
}

#[test]
fn no_silence_and_no_failure_is_passed_over(rt: HostRuntime) -> Result<(), Fail> {
    let mut buf = [0; 4];
    let mut link = ReaderLink::new(Halting { calls: 0 }, true);
    assert!(rt; matches!(link.next(&mut buf), Ok(Got::Quiet)));
    assert!(rt; link.next(&mut buf).is_err());
    assert!(rt; matches!(link.next(&mut buf), Ok(Got::Bytes(1))));
    Ok(())
}

#[test]
fn a_terminal_falls_silent_and_a_file_ends(rt: HostRuntime) -> Result<(), Fail> {
    let mut buf = [0; 4];
    let bytes: &[u8] = b"ab";
    let mut terminal = ReaderLink::new(bytes, true);
    assert!(rt; matches!(terminal.next(&mut buf), Ok(Got::Bytes(2))));
    let given: &[u8] = b"ab";
    assert_eq!(rt; &buf[..2], given);
    assert!(rt; matches!(terminal.next(&mut buf), Ok(Got::Quiet)));
    assert!(rt; matches!(terminal.next(&mut buf), Ok(Got::Quiet)));
    let mut file = ReaderLink::new(bytes, false);
    assert!(rt; matches!(file.next(&mut buf), Ok(Got::Bytes(2))));
    assert!(rt; matches!(file.next(&mut buf), Ok(Got::End)));
    Ok(())
}

#[test]
fn a_failed_read_is_a_fault_of_a_terminal_too(rt: HostRuntime) -> Result<(), Fail> {
    let mut buf = [0; 4];
    for tty in [false, true] {
        let mut link = ReaderLink::new(Failing { given: false }, tty);
        assert!(rt; matches!(link.next(&mut buf), Ok(Got::Bytes(1))));
        assert_eq!(rt; buf[0], 7);
        assert!(rt; link.next(&mut buf).is_err());
        assert!(rt; link.next(&mut buf).is_err());
    }
    Ok(())
}

#[test]
fn a_write_of_nothing_is_a_fault(rt: HostRuntime) -> Result<(), Fail> {
    let mut room = [0; 2];
    let mut sink = WriterSink::new(&mut room[..]);
    assert!(rt; sink.write_whole(b"ab").is_ok());
    assert!(rt; sink.write_whole(b"c").is_err());
    Ok(())
}

/// Runs over these bytes, with no file on the shelf.
fn run_on(
    alloc: Global,
    words: &[String],
    input: &[u8],
    room: &mut [u8],
    errors: &mut [u8],
) -> Status {
    let mut shelf = MemShelf::new(Vec::new(alloc), Vec::new(alloc));
    run_over(alloc, words, &mut shelf, input, room, errors)
}

// Two empty reads are two silences of a terminal, and so the 31st and the 32nd item; a file ends at the first.
#[test]
fn the_last_word_makes_the_reader_a_terminal(rt: HostRuntime) -> Result<(), Fail> {
    let alloc = rt.alloc();
    let (ping, pong) = both_of(alloc, &[PING], &[PONG])?;
    let rows: [(&[&str], Status); 2] = [
        (
            &["serve", "-", "10.0.0.1", "items", "32", "tty"],
            Status::Budget,
        ),
        (&["serve", "-", "10.0.0.1", "items", "32"], Status::Done),
    ];
    for (words, status) in rows {
        let words = words_of(alloc, words)?;
        let (mut room, mut errors) = ([0; 64], [0; 8]);
        let ended = run_on(alloc, &words, &ping, &mut room, &mut errors);
        assert_eq!(rt; ended, status);
        assert!(rt; room.starts_with(&pong));
        assert_eq!(rt; room[30], 0);
        assert_eq!(rt; errors[0], 0);
    }
    Ok(())
}

#[test]
fn names_are_reported_beside_the_output(rt: HostRuntime) -> Result<(), Fail> {
    let alloc = rt.alloc();
    let (query, reply) = both_of(alloc, &[QUERY], &[REPLY])?;
    let words = words_of(alloc, &WORDS)?;
    let (mut room, mut errors) = ([0; 128], [0; 32]);
    let ended = run_on(alloc, &words, &reply, &mut room, &mut errors);
    assert_eq!(rt; ended, Status::Done);
    assert!(rt; room.starts_with(&query));
    assert!(rt; errors.starts_with(b"a.b 192.0.2.7\n\0"));
    Ok(())
}
