// The words of `resolve`, over a line in memory.
use crate::harness::{Trial, both_of, bytes_of, check_bad_words, words_of};
use crate::run::run;
use crate::status::Status;
use std::alloc::Global;
use std::test::Fail;
use uip_edge::{MemLink, MemShelf, MemSink};

// The frame of the query for a.b from 10.0.0.1 to 10.0.0.2 with the id 1, and that of a reply with the address 192.0.2.7.
pub const QUERY: &str = "\
    C0 45000031 00010000 401166B9 0A000001 0A000002 10000035 001DD5B7 \
    00010100 00010000 00000000 01610162 00000100 01 C0";

pub const REPLY: &str = "\
    C0 45000041 00010000 401166A9 0A000002 0A000001 00351000 002D0000 \
    00018180 00010001 00000000 01610162 00000100 01DBDC0C 00010001 0000003C 0004DBDC 000207 C0";

pub const WORDS: [&str; 5] = ["resolve", "10.0.0.1", "10.0.0.2", "1", "a.b"];

#[test]
fn reports_the_address_for_every_cut(rt: HostRuntime) -> Result<(), Fail> {
    let alloc = rt.alloc();
    let (query, reply) = both_of(alloc, &[QUERY], &[REPLY])?;
    let good = Trial {
        expected: b"a.b 192.0.2.7\n",
        ..Trial::new(&WORDS, &reply, &query)
    };
    good.check_cuts(&rt, alloc)?;
    // A reply with the id 2.
    let mut other = reply.clone()?;
    if let Some(id) = other.get_mut(30) {
        *id = 2;
    }
    let ignored = Trial {
        input: &other,
        expected: b"a.b open\n",
        ..good
    };
    ignored.check_cuts(&rt, alloc)
}

/// Returns the frames of the query with the identifications 1 to 9.
fn nine_queries(alloc: Global) -> Result<Vec<u8>, Fail> {
    let mut frames = Vec::new(alloc);
    for at in 0..9u8 {
        let mut query = bytes_of(alloc, &[QUERY])?;
        if let [_, _, _, _, _, _, ident, _, _, _, _, _, sum, ..] = query.as_mut_slice() {
            *ident = 1 + at;
            *sum = 0xB9 - at;
        }
        frames.extend_from_slice(&query)?;
    }
    Ok(frames)
}

#[test]
fn gives_up_after_249_silences(rt: HostRuntime) -> Result<(), Fail> {
    let alloc = rt.alloc();
    let queries = nine_queries(alloc)?;
    let silent = Trial {
        silences: 249,
        expected: b"a.b timeout\n",
        ..Trial::new(&WORDS, &[], &queries)
    };
    silent.check(&rt, alloc, 1)?;
    let limits: [(&str, Status, &[u8]); 2] = [
        ("249", Status::Done, b"a.b timeout\n"),
        ("248", Status::Budget, b"a.b open\n"),
    ];
    for (items, status, expected) in limits {
        let words = [
            "resolve", "10.0.0.1", "10.0.0.2", "1", "items", items, "a.b", "tty",
        ];
        let limited = Trial {
            words: &words,
            silences: 300,
            status,
            expected,
            ..silent
        };
        limited.check(&rt, alloc, 1)?;
    }
    Ok(())
}

#[test]
fn takes_no_other_words(rt: HostRuntime) -> Result<(), Fail> {
    let refused: [&[&str]; 14] = [
        &["resolve"],
        &["resolve", "10.0.0.1", "10.0.0.2", "1"],
        &["resolve", "10.0.0.1", "10.0.0.2", "1", "tty"],
        &["resolve", "10.0.0.1", "10.0.0.2", "65536", "a.b"],
        &["resolve", "10.0.0.1", "10.0.0.2", "01", "a.b"],
        &["resolve", "10.0.0.1", "10.0.0", "1", "a.b"],
        &["resolve", "10.0.0.1", "10.0.0.2", "1", "a"],
        &["resolve", "10.0.0.1", "10.0.0.2", "1", "a.b."],
        &["resolve", "10.0.0.1", "10.0.0.2", "1", "a..b"],
        &["resolve", "10.0.0.1", "10.0.0.2", "1", "a b.c"],
        &["resolve", "10.0.0.1", "10.0.0.2", "1", "items", "5"],
        &["resolve", "10.0.0.1", "10.0.0.2", "1", "items", "x", "a.b"],
        &["resolve", "10.0.0.1", "10.0.0.2", "1", "a.b", "tty", "tty"],
        &[
            "resolve", "10.0.0.1", "10.0.0.2", "1", "a.b", "c.d", "e.f", "g.h", "i.j",
        ],
    ];
    check_bad_words(&rt, rt.alloc(), REPLY, &refused)
}

#[test]
fn asks_for_four_names(rt: HostRuntime) -> Result<(), Fail> {
    let words = [
        "resolve", "10.0.0.1", "10.0.0.2", "65535", "items", "0", "a.b", "c.d", "E.f", "g-_.h",
        "tty",
    ];
    let ran = Trial::new(&words, &[], &[]).run(rt.alloc(), 1)?;
    assert_eq!(rt; ran.status, Status::Budget);
    let expected: &[u8] = b"a.b open\nc.d open\nE.f open\ng-_.h open\n";
    assert_eq!(rt; ran.tell.written(), expected);
    Ok(())
}

#[test]
fn is_no_command_of_run(rt: HostRuntime) -> Result<(), Fail> {
    let alloc = rt.alloc();
    let words = words_of(alloc, &WORDS)?;
    let mut link = MemLink::new(Vec::new(alloc), 1, Vec::new(alloc));
    let mut shelf = MemShelf::new(Vec::new(alloc), Vec::new(alloc));
    let Ok(mut out) = MemSink::new(alloc, 4096, Vec::new(alloc)) else {
        return Err("no memory".into());
    };
    let status = run(alloc, &words, &mut shelf, &mut link, &mut out);
    assert_eq!(rt; status, Status::BadWords);
    Ok(())
}
