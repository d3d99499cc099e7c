// Each call of the shelf, of the link and of the sink fails in turn, from the first one until none fails. The answer to a
// datagram is written before the link is read again.
use crate::ether_tests::{ETHER, REPLY, REQUEST};
use crate::harness::{IMAGE, Trial, both_of, bytes_of, words_of};
use crate::run::run;
use crate::status::Status;
use crate::tests::{ESCAPED_PING, ESCAPED_PONG, PING, SERVE};
use std::alloc::Global;
use std::cell::Cell;
use std::process::Abort;
use std::test::Fail;
use uip_edge::{Failed, Got, Link, MemShelf, Sink};

const PAGE: &[u8] =
    b"client 10.0.0.2 1025 0 536 get /\nopen 1\nround\nround\nround\nround\nround\nround\nround\nround\nround\n\
    round\nround\nround\n";

/// Checks that a run with a call that fails did what is due, and wrote a prefix of what it writes if none fails.
fn check(rt: &impl Abort, alloc: Global, trial: &Trial<'_, '_>) -> Result<(), Fail> {
    let ran = trial.run(alloc, 1)?;
    assert_eq!(rt; ran.status, trial.status);
    let text = ran.out.written();
    assert!(rt; trial.output.starts_with(text));
    match ran.status {
        Status::Done => assert!(rt; text.len() == trial.output.len()),
        Status::ShelfFault => assert!(rt; text.is_empty()),
        _ => {}
    }
    Ok(())
}

fn due(call: u64, calls: u64, status: Status) -> Status {
    if call <= calls { status } else { Status::Done }
}

/// [add: command] A trial of a command, of which each call fails in turn.
#[test]
fn each_call_fails_in_turn(rt: HostRuntime) -> Result<(), Fail> {
    let alloc = rt.alloc();
    let (ping, pong) = both_of(alloc, &[ESCAPED_PING], &[ESCAPED_PONG])?;
    let (request, replied) = both_of(alloc, &[REQUEST], &[REPLY])?;
    let replayed = Trial {
        i: PAGE,
        ..Trial::new(
            &["replay", "h", "i"],
            &ping,
            b"client 1 closed 86 clean\nticks 0 datagrams 8\n",
        )
    };
    let checked: &[u8] = b"/index.html 86\nfiles 1\n";
    // What is done, and how many calls of shelf, link and sink are made for it.
    let rows = [
        (Trial::new(&SERVE, &ping, &pong), 0, 35, 1),
        (
            Trial::new(&["serve", "h", "10.0.0.1"], &ping, &pong),
            2,
            35,
            1,
        ),
        (
            Trial::new(&["desk", "h", "10.0.0.1"], &ping, &pong),
            2,
            35,
            1,
        ),
        (Trial::new(&ETHER, &request, &replied), 0, 45, 1),
        (replayed, 4, 0, 2),
        (Trial::new(&["check", "h"], &ping, checked), 2, 0, 1),
        (
            Trial::new(&["pack", "/index.html=i"], &ping, IMAGE),
            2,
            0,
            1,
        ),
    ];
    for (trial, shelf, link, sink) in rows {
        for call in 1..50 {
            let shelf = Trial {
                shelf_fails: &[call],
                status: due(call, shelf, Status::ShelfFault),
                ..trial
            };
            check(&rt, alloc, &shelf)?;
            let link = Trial {
                link_fails: &[call],
                status: due(call, link, Status::LinkFault),
                ..trial
            };
            check(&rt, alloc, &link)?;
            let sink = Trial {
                sink_fails: &[call],
                status: due(call, sink, Status::WriteFault),
                ..trial
            };
            check(&rt, alloc, &sink)?;
        }
    }
    Ok(())
}

/// A line, a byte a call, that counts its reads.
#[derive(Drop)]
struct Counting<'a> {
    line: &'a [u8],
    asked: &'a Cell<usize>,
}

impl<'a> Link for Counting<'a> {
    ghost use Rattle.std.specs.Prelude.{None};

    ghost coming = { λ _. None };

    ghost faults = { λ _. 0 };

    fn next(&mut self, buf: &mut [u8]) -> Result<Got, Failed> {
        let at = self.asked.get();
        self.asked.set(at.saturating_add(1));
        match self.line.get(at) {
            Some(byte) => {
                buf[0] = *byte;
                Ok(Got::Bytes(1))
            }
            None => Ok(Got::End),
        }
    }
}

/// A sink that stores how often the line had been read at the first write and at the last.
#[derive(Drop)]
struct Noting<'a> {
    asked: &'a Cell<usize>,
    first: &'a Cell<usize>,
    last: &'a Cell<usize>,
}

impl<'a> Sink for Noting<'a> {
    ghost use Rattle.std.specs.Prelude.{None};

    ghost written = { λ _. None };

    ghost faults = { λ _. 0 };

    fn write(&mut self, piece: &[u8]) -> Result<usize, Failed> {
        if self.first.get() == 0 {
            self.first.set(self.asked.get());
        }
        self.last.set(self.asked.get());
        Ok(piece.len())
    }
}

#[test]
fn answers_before_it_asks_again(rt: HostRuntime) -> Result<(), Fail> {
    let alloc = rt.alloc();
    let words = words_of(alloc, &SERVE)?;
    let line = bytes_of(alloc, &[PING, PING])?;
    let (asked, first, last) = (Cell::new(0), Cell::new(0), Cell::new(0));
    let mut shelf = MemShelf::new(Vec::new(alloc), Vec::new(alloc));
    let mut link = Counting {
        line: &line,
        asked: &asked,
    };
    let mut out = Noting {
        asked: &asked,
        first: &first,
        last: &last,
    };
    let status = run(alloc, &words, &mut shelf, &mut link, &mut out);
    assert_eq!(rt; status, Status::Done);
    assert!(rt; first.get() == 30);
    assert!(rt; last.get() == 60);
    Ok(())
}
