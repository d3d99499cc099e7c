// The worked exchanges, over a line in memory, with the items cut in every way.
use crate::harness::{
    Session, Trial, bad, both_of, bytes_of, check_all, check_bad_words, check_sessions, prefix,
};
use crate::help::{HELP, VERSION};
use crate::status::Status;
use site_commands::SiteWhy;
use std::alloc::Global;
use std::test::Fail;
use trace::CaptureWhy;

pub const SERVE: [&str; 3] = ["serve", "-", "10.0.0.1"];

pub const PING: &str = "C0 4500001C 00010000 400166DE 0A000002 0A000001 0800F7FD 00010001 C0";

// The same without its marks.
const PING_ALONE: &str = "4500001C 00010000 400166DE 0A000002 0A000001 0800F7FD 00010001";

pub const PONG: &str = "C0 4500001C 00010000 400166DE 0A000001 0A000002 0000FFFD 00010001 C0";

// With an END and an ESC in the payload.
pub const ESCAPED_PING: &str = "\
    C0 4500001E 00010000 400166DC 0A000002 0A000001 08003722 00010001 \
    DBDCDBDD C0";

pub const ESCAPED_PONG: &str = "\
    C0 4500001E 00010000 400166DC 0A000001 0A000002 00003F22 00010001 \
    DBDCDBDD C0";

// Of odd length, with an ESC before a byte that needs none.
const STRAY_PING: &str = "\
    C0 4500001D 00010000 400166DD 0A000002 0A000001 0800B6FD 00010001 \
    DB41 C0";

const STRAY_PONG: &str = "\
    C0 4500001D 00010000 400166DD 0A000001 0A000002 0000BEFD 00010001 \
    41 C0";

// Two bytes after the datagram's total length.
const PADDED_PING: &str = "\
    C0 4500001C 00010000 400166DE 0A000002 0A000001 0800F7FD 00010001 \
    9999 C0";

const LARGEST_PING_HEAD: &str = "450005DC 00010000 4001611E 0A000002 0A000001 0800F7FD 00010001";

const LARGEST_PONG_HEAD: &str = "450005DC 00010000 4001611E 0A000001 0A000002 0000FFFD 00010001";

// A SYN to a port that nothing serves, its refusal, and a reset, which is not answered.
const STRAY_SYN: &str =
    "C0 45000028 00010000 400666CD 0A000002 0A000001 04010051 000003E8 00000000 50022000 73A60000 C0";

const REFUSAL: &str =
    "C0 45000028 00010000 400666CD 0A000001 0A000002 00510401 00000000 000003E9 50140000 93930000 C0";

const RESET: &str =
    "C0 45000028 00010000 400666CD 0A000002 0A000001 04010051 000003E8 00000000 50042000 73A40000 C0";

// A SYN as a Linux host sends it, with five options; its answer, and that answer sent again.
pub const SYN: &str = "\
    C0 4500003C 00014000 400626B9 0A000002 0A000001 04010050 000003E8 00000000 A002FAF0 32C10000 \
    020403C6 0402080A 00000001 00000000 01030307 C0";

pub const SYN_ACK: &str = "\
    C0 4500002C 00010000 400666C9 0A000001 0A000002 00500401 00000000 000003E9 601205B4 76260000 \
    020405B4 C0";

const SENT_AGAIN: &str = "\
    C0 4500002C 00020000 400666C8 0A000001 0A000002 00500401 00000000 000003E9 601205B4 76260000 \
    020405B4 C0";

// The client's acknowledgement with one byte of text, which decides nothing, and its acknowledgement.
const REQUEST: &str = "\
    C0 45000029 00020000 400666CB 0A000002 0A000001 04010050 000003E9 00000001 50182000 FB8D0000 \
    78 C0";

const TAKEN: &str =
    "C0 45000028 00020000 400666CC 0A000001 0A000002 00500401 00000001 000003EA 501005B4 8DE20000 C0";

// `GET / HTTP/1.0` CR LF, and the page of a site of one file.
pub const GET: &str = "\
    C0 45000038 00020000 400666BC 0A000002 0A000001 04010050 000003E9 00000001 50182000 A1E90000 \
    47455420 2F204854 54502F31 2E300D0A C0";

pub const PAGE: &str = "\
    C0 4500007E 00020000 40066676 0A000001 0A000002 00500401 00000001 000003F9 501805B4 A75C0000 \
    48545450 2F312E30 20323030 204F4B0D 0A536572 7665723A 20754950 2F312E30 0D0A436F 6E6E6563 \
    74696F6E 3A20636C 6F73650D 0A436F6E 74656E74 2D747970 653A2074 6578742F 68746D6C 0D0A0D0A \
    68656C6C 6F0A C0";

// The head of a capture file, and that of the echo request in it.
const CAPTURE_HEAD: &str = "A1B2C3D4 00020004 00000000 00000000 0000FFFF 00000065";

const PING_RECORD: &str = "00000000 00000000 0000001C 0000001C";

#[test]
fn answers_each_datagram(rt: HostRuntime) -> Result<(), Fail> {
    let sessions: [Session; 10] = [
        (&[PING], &[PONG]),
        (&[""], &[""]),
        (&["C0"], &[""]),
        (&["DB C0"], &[""]),
        // A datagram without its last mark.
        (&["C0", PING_ALONE], &[""]),
        (&[ESCAPED_PING], &[ESCAPED_PONG]),
        (&[STRAY_PING], &[STRAY_PONG]),
        (&[PADDED_PING], &[PONG]),
        (&[STRAY_SYN], &[REFUSAL]),
        (&[RESET], &[""]),
    ];
    check_sessions(&rt, rt.alloc(), &SERVE, &sessions)
}

/// Returns a datagram of 1500 bytes that are 0, except for its headers.
fn largest(alloc: Global, head: &str) -> Result<Vec<u8>, Fail> {
    let mut datagram = bytes_of(alloc, &[head])?;
    datagram.extend_from_slice(&[0; 1472])?;
    Ok(datagram)
}

#[test]
fn takes_the_largest_frame(rt: HostRuntime) -> Result<(), Fail> {
    let alloc = rt.alloc();
    let mut input = largest(alloc, LARGEST_PING_HEAD)?;
    let mut longer = input.clone()?;
    input.push(0xC0)?;
    let mut output = [0xC0].to_vec(alloc)?;
    output.extend_from_slice(&largest(alloc, LARGEST_PONG_HEAD)?)?;
    output.push(0xC0)?;
    Trial::new(&SERVE, &input, &output).check_cuts(&rt, alloc)?;
    longer.push(0)?;
    longer.extend_from_slice(&bytes_of(alloc, &[PING])?)?;
    let pong = bytes_of(alloc, &[PONG])?;
    Trial::new(&SERVE, &longer, &pong).check_cuts(&rt, alloc)
}

#[test]
fn serves_a_connection(rt: HostRuntime) -> Result<(), Fail> {
    let alloc = rt.alloc();
    check_sessions(&rt, alloc, &SERVE, &[(&[SYN, REQUEST], &[SYN_ACK, TAKEN])])?;
    let (syn, answered) = both_of(alloc, &[SYN], &[SYN_ACK])?;
    let again = bytes_of(alloc, &[SYN_ACK, SENT_AGAIN])?;
    // 186 bytes without a frame: with the 62 of the SYN four times as many.
    let mut longer = syn.clone()?;
    longer.extend_from_slice(&[0xC0; 186])?;
    let paced = ["serve", "-", "10.0.0.1", "pace", "62"];
    let stopped = [
        "serve", "-", "10.0.0.1", "pace", "62", "items", "247", "tty",
    ];
    let trials = [
        Trial {
            silences: 3,
            ..Trial::new(&SERVE, &syn, &answered)
        },
        Trial {
            silences: 4,
            ..Trial::new(&SERVE, &syn, &again)
        },
        Trial::new(&paced, &longer, &again),
        Trial::new(&stopped, &longer, &answered).ending(Status::Budget),
    ];
    check_all(&rt, alloc, &trials)
}

#[test]
fn serves_a_site(rt: HostRuntime) -> Result<(), Fail> {
    let alloc = rt.alloc();
    let (asked, paged) = both_of(alloc, &[SYN, GET], &[SYN_ACK, PAGE])?;
    let served = Trial::new(&["serve", "h", "10.0.0.1"], &asked, &paged);
    served.check(&rt, alloc, 4096)?;
    Trial::new(&["serve", "missing", "10.0.0.1"], &asked, &[])
        .ending(Status::ShelfFault)
        .check(&rt, alloc, 4096)?;
    let cut = Trial {
        h: prefix(served.h, 20),
        output: &[],
        status: bad(SiteWhy::Cut, 1),
        ..served
    };
    cut.check(&rt, alloc, 4096)
}

#[test]
fn knows_its_words(rt: HostRuntime) -> Result<(), Fail> {
    let alloc = rt.alloc();
    let bad: [&[&str]; 26] = [
        &[],
        &["serve"],
        &["serve", "-"],
        &["serve", "10.0.0.1"],
        &["serve", "-", "10.0.0.256"],
        &["serve", "-", "10.0.0.1", "items", "01"],
        &["serve", "-", "10.0.0.1", "pace"],
        &["serve", "-", "10.0.0.1", "pace", "18446744073709551616"],
        &["serve", "-", "10.0.0.1", "items", "2", "pace", "3"],
        &["serve", "-", "10.0.0.1", "tty", "items", "2"],
        &["serve", "-", "10.0.0.1", "tty", "tty"],
        &["serve", "-", "10.0.0.1", "items", "tty"],
        &["replay"],
        &["replay", "a"],
        &["replay", "a", "b", "c"],
        &["replay", "a", "b", "show", "x"],
        &["dump", "tty", "items", "2"],
        &["dump", "items", "tty"],
        &["dump", "pace", "2"],
        &["pcap", "items", "01"],
        &["slip", "tty"],
        &["slip", "items", "2", "tty"],
        &["help"],
        &["-h"],
        &["--help", "serve"],
        &["--version", "tty"],
    ];
    check_bad_words(&rt, alloc, PING, &bad)?;
    let greatest = [
        "serve",
        "-",
        "10.0.0.1",
        "pace",
        "18446744073709551615",
        "items",
        "18446744073709551615",
        "tty",
    ];
    check_sessions(&rt, alloc, &greatest, &[(&[PING], &[PONG])])
}

#[test]
fn shows_its_own_texts(rt: HostRuntime) -> Result<(), Fail> {
    let alloc = rt.alloc();
    for (word, text) in [("--help", HELP), ("--version", VERSION)] {
        let words = [word];
        let shown = Trial::new(&words, &[], text);
        shown.check(&rt, alloc, 4096)?;
        let full = Trial {
            room: 4,
            output: prefix(text, 4),
            status: Status::WriteFault,
            ..shown
        };
        full.check(&rt, alloc, 4096)?;
    }
    Ok(())
}

#[test]
fn stops_as_asked(rt: HostRuntime) -> Result<(), Fail> {
    let alloc = rt.alloc();
    let (ping, pong) = both_of(alloc, &[PING], &[PONG])?;
    let budgets: [(&str, &[u8], Status); 4] = [
        ("29", &[], Status::Budget),
        ("30", &pong, Status::Budget),
        ("31", &pong, Status::Done),
        ("0", &[], Status::Budget),
    ];
    for (items, output, status) in budgets {
        let words = ["serve", "-", "10.0.0.1", "items", items];
        Trial::new(&words, &ping, output)
            .ending(status)
            .check_cuts(&rt, alloc)?;
    }
    let full = Trial {
        room: 10,
        status: Status::WriteFault,
        ..Trial::new(&SERVE, &ping, prefix(&pong, 10))
    };
    full.check_cuts(&rt, alloc)?;
    let failing = Trial {
        link_fails: &[3],
        status: Status::LinkFault,
        ..Trial::new(&SERVE, &ping, &[])
    };
    failing.check(&rt, alloc, 1)
}

#[test]
fn reports_a_line(rt: HostRuntime) -> Result<(), Fail> {
    let alloc = rt.alloc();
    let (line, ping) = both_of(alloc, &[PING, PONG, STRAY_SYN], &[PING])?;
    let capture = bytes_of(alloc, &[CAPTURE_HEAD, PING_RECORD, PING_ALONE])?;
    let lines: &[u8] =
        b"1 28 icmp 10.0.0.2 10.0.0.1 8 0\n2 28 icmp 10.0.0.1 10.0.0.2 0 0\n3 40 tcp 10.0.0.2:1025 10.0.0.1:81 S 1000 0 0\n";
    let stopped = Status::Budget;
    let cut = Status::BadCapture {
        number: 1,
        why: CaptureWhy::Cut,
    };
    let rows: [(&[&str], &[u8], &[u8], Status); 7] = [
        (&["dump"], &line, lines, Status::Done),
        (
            &["dump", "items", "60", "tty"],
            &line,
            prefix(lines, 64),
            stopped,
        ),
        (&["pcap", "tty"], &ping, &capture, Status::Done),
        (
            &["pcap", "items", "0"],
            &ping,
            prefix(&capture, 24),
            stopped,
        ),
        (&["slip"], &capture, &ping, Status::Done),
        (&["slip", "items", "68"], &capture, &ping, stopped),
        (&["slip"], prefix(&capture, 67), &[], cut),
    ];
    for (words, input, output, status) in rows {
        Trial::new(words, input, output)
            .ending(status)
            .check_cuts(&rt, alloc)?;
    }
    Ok(())
}
