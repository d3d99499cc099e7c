// Schedules that were worked by hand: the file `h` holds the image of a site, and `i` the schedule.
use crate::harness::{IMAGE, Trial, bad, check_all};
use crate::site_tests::HITS;
use crate::status::Status;
use link_replay::Why;
use site_commands::SiteWhy;
use std::test::Fail;

// A client receives a page.
const PAGE: &[u8] =
    b"client 10.0.0.2 1025 0 536 get /\nopen 1\nround\nround\nround\nround\nround\nround\nround\nround\nround\n\
    round\nround\nround\n";

// The page is lost nine times, and the node resets.
const LOST_SEGMENT: &[u8] =
    b"client 10.0.0.2 1025 0 536 get /\nopen 1\nround\nround\nround\ntick 249\ngive 13\n";

// The answers to the SYN are lost, and a second SYN opens a connection.
const LOST_SYN_ACKS: &[u8] =
    b"client 10.0.0.2 1025 0 536 get /\nopen 1\nround\ntick 102\nlose\nagain 1\nround\nround\nround\nround\nround\n\
    round\nround\nround\nround\nround\nround\nround\n";

// A request that is no `GET`, in segments of one byte.
const RAW: &[u8] =
    b"client 10.0.0.2 1025 0 1 raw 504f5354202f20\nopen 1\nround\nround\nround\nround\nround\nround\nround\nround\n\
    round\nround\nround\nround\nround\nround\n";

// The SYN arrives again long after the connection has ended.
const LATE_SYN: &[u8] =
    b"client 10.0.0.2 1025 0 536 get /\nclient 10.0.0.3 1025 0 536 get /\nopen 1\nround\nround\nround\nround\n\
    round\nround\nround\nround\nround\nround\nround\nround\ntick 120\ngive 1\n";

// The client shrinks its window while a segment is lost.
const SHRUNK_WINDOW: &[u8] =
    b"client 10.0.0.2 1025 0 536 get /\nopen 1\nround\nround\nround\nround\nround\nlose\nwindow 1 40\nagain 1\n\
    round\ntick 4\nround\nround\nround\nround\nround\nround\nround\n";

// The counters change before their text is retransmitted.
const GENERATOR_AGAIN: &[u8] =
    b"client 10.0.0.2 1025 0 536 get /s.shtml\nopen 1\nround\nround\nround\nround\nround\nlose\nping 10.0.0.9\n\
    ping 10.0.0.9\nround\ntick 4\nround\nround\nround\nround\nround\nround\nround\n";

// Eleven clients for ten slots.
const FULL_TABLE: &[u8] =
    b"client 10.0.0.2 1025 0 536 get /t.shtml\nclient 10.0.0.2 1026 0 536 get /\nclient 10.0.0.2 1027 0 536 get /\n\
    client 10.0.0.2 1028 0 536 get /\nclient 10.0.0.2 1029 0 536 get /\nclient 10.0.0.2 1030 0 536 get /\n\
    client 10.0.0.2 1031 0 536 get /\nclient 10.0.0.2 1032 0 536 get /\nclient 10.0.0.2 1033 0 536 get /\n\
    client 10.0.0.2 1034 0 536 get /\nclient 10.0.0.2 1035 0 536 get /\nopen 1\nopen 2\nopen 3\nopen 4\nopen 5\n\
    open 6\nopen 7\nopen 8\nopen 9\nopen 10\nopen 11\nround\nround\ngive 22\ngive 32\ngive 33\ngive 34\ngive 35\n\
    give 36\ngive 37\ngive 38\ngive 39\ngive 40\n";

// A segment and an acknowledgement arrive again.
const REPEATS: &[u8] =
    b"client 10.0.0.2 1025 0 536 get /\nopen 1\nround\nround\nround\nround\ngive 4\nround\nround\nround\ngive 5\n\
    round\nround\nround\nround\nround\n";

// Rounds alone: two for the request, eight for the four parts of the page, and six more.
const HONEST: &[u8] =
    b"client 10.0.0.2 1025 0 536 get /\nopen 1\nround\nround\nround\nround\nround\nround\nround\nround\n\
    round\nround\nround\nround\nround\nround\nround\nround\n";

// The client closes first.
const CLIENT_FIRST: &[u8] =
    b"client 10.0.0.2 1025 0 536 get /\nopen 1\nround\nround\nround\nround\nclose 1\ngive 6\ngive 7\ngive 8\n\
    give 9\ngive 10\ngive 11\ngive 12\n";

// The page is damaged, and retransmitted.
const DAMAGED: &[u8] =
    b"client 10.0.0.2 1025 0 536 get /\nopen 1\nround\nround\nround\ndamage 4 45 1\nlose\ntick 4\nround\nround\n\
    round\nround\nround\n";

// The client closes in the middle of a request.
const RESET: &[u8] =
    b"client 10.0.0.2 1025 0 536 raw 474554\nopen 1\nround\nround\nround\nround\nclose 1\nround\nround\n";

// Two clients, one after the other.
const TWO: &[u8] =
    b"client 10.0.0.2 1025 0 536 get /h.shtml\nclient 10.0.0.2 1026 0 536 get /h.shtml\nopen 1\nround\nround\n\
    round\nround\nround\nround\nround\nround\nround\nround\nround\nround\nround\nround\nopen 2\nround\nround\nround\n\
    round\nround\nround\nround\nround\nround\nround\nround\nround\nround\nround\n";

/// A site whose page has all counters, twice. [add: counter]
const STATISTICS: &[u8] = b"UIPSITE1\0\x01\x08/s.shtml\0\0\0\x1a%! net-stats\n%! net-stats\n";

const CONNECTIONS: &[u8] = b"UIPSITE1\0\x01\x08/t.shtml\0\0\0\x13%! tcp-connections\n";

// The start of the image of a site of 1000 bytes.
const LARGE_FRONT: &[u8] = b"UIPSITE1\0\x01\x0b/index.html\0\0\x03\xe8";

const FULL_TABLE_REPORT: &[u8] =
    b"client 1 closed 983 clean\nclient 2 open 0 clean\nclient 3 open 0 clean\nclient 4 open 0 clean\n\
    client 5 open 0 clean\nclient 6 open 0 clean\nclient 7 open 0 clean\nclient 8 open 0 clean\nclient 9 open 0 clean\n\
    client 10 open 0 clean\nclient 11 opening 0 clean\nticks 0 datagrams 40\n";

const SHOWN: &[u8] =
    b"1 0 c1 S 1000 0\n2 0 n1 SA 0 0\n3 0 c1 AP 1001 18\n4 0 n1 AP 1 86\n5 0 c1 A 1019 0\n6 0 n1 AF 87 0\n\
    7 0 c1 AF 1019 0\n8 0 n1 A 88 0\nclient 1 closed 86 clean\ntext \
    485454502f312e3020323030204f4b0d0a5365727665723a207549502f312e300d0a436f6e6e656374696f6e3a20636c\
    6f73650d0a436f6e74656e742d747970653a20746578742f68746d6c0d0a0d0a68656c6c6f0a\nticks 0 datagrams 8\n";

fn replaying<'a>(site: &'a [u8], schedule: &'a [u8], report: &'a [u8]) -> Trial<'static, 'a> {
    Trial {
        i: schedule,
        ..Trial::over(&["replay", "h", "i"], site, report, Status::Done)
    }
}

fn refused<'a>(schedule: &'a [u8], expected: &'a [u8], line: u32, why: Why) -> Trial<'static, 'a> {
    replaying(IMAGE, schedule, expected).ending(Status::BadSchedule { line, why })
}

/// [add: schedule-line] A schedule with the line, and its report.
#[test]
fn replays_a_page(rt: HostRuntime) -> Result<(), Fail> {
    let closed: &[u8] = b"client 1 closed 86 clean\nticks 0 datagrams 8\n";
    let rows = [
        replaying(IMAGE, PAGE, closed),
        Trial {
            words: &["replay", "h", "i", "show"],
            ..replaying(IMAGE, PAGE, SHOWN)
        },
        Trial {
            words: &["replay", "-", "i"],
            ..replaying(
                b"",
                PAGE,
                b"client 1 closed 97 clean\nticks 0 datagrams 8\n",
            )
        },
        replaying(
            IMAGE,
            LOST_SEGMENT,
            b"client 1 reset 0 clean\nticks 249 datagrams 13\n",
        ),
        replaying(
            IMAGE,
            LOST_SYN_ACKS,
            b"client 1 closed 86 clean\nticks 102 datagrams 16\n",
        ),
        replaying(
            IMAGE,
            RAW,
            b"client 1 closed 0 clean\nticks 0 datagrams 14\n",
        ),
        replaying(
            IMAGE,
            LATE_SYN,
            b"client 1 closed 86 stale\nclient 2 idle 0 clean\nticks 120 datagrams 9\n",
        ),
        replaying(
            IMAGE,
            DAMAGED,
            b"client 1 closed 86 clean\nticks 4 datagrams 9\n",
        ),
        replaying(
            IMAGE,
            RESET,
            b"client 1 reset 0 clean\nticks 0 datagrams 6\n",
        ),
        Trial {
            room: 10,
            status: Status::WriteFault,
            ..replaying(IMAGE, PAGE, &closed[..10])
        },
    ];
    check_all(&rt, rt.alloc(), &rows)
}

// The eleventh SYN gets the slot of a connection in TIME-WAIT, and a late datagram of that connection arrives.
const ELEVENTH: &[u8] =
    b"client 10.0.0.2 1025 0 536 get /\nclient 10.0.0.2 1026 0 536 get /\nclient 10.0.0.2 1027 0 536 get /\n\
    client 10.0.0.2 1028 0 536 get /\nclient 10.0.0.2 1029 0 536 get /\nclient 10.0.0.2 1030 0 536 get /\n\
    client 10.0.0.2 1031 0 536 get /\nclient 10.0.0.2 1032 0 536 get /\nclient 10.0.0.2 1033 0 536 get /\n\
    client 10.0.0.2 1034 0 536 get /\nclient 10.0.0.2 1035 0 536 get /\nopen 1\nopen 2\nopen 3\nopen 4\nopen 5\n\
    open 6\nopen 7\nopen 8\nopen 9\nopen 10\nround\nround\nround\nround\nround\nround\nround\nround\nopen 11\n\
    round\ngive 41\nround\nround\nround\nround\nround\nround\nround\n";

const ELEVENTH_REPORT: &[u8] =
    b"client 1 closed 86 stale\nclient 2 closed 86 clean\nclient 3 closed 86 clean\nclient 4 closed 86 clean\n\
    client 5 closed 86 clean\nclient 6 closed 86 clean\nclient 7 closed 86 clean\nclient 8 closed 86 clean\n\
    client 9 closed 86 clean\nclient 10 closed 86 clean\nclient 11 closed 86 clean\nticks 0 datagrams 89\n";

// The client gives up, and what it sent before arrives later.
const GIVEN_UP: &[u8] =
    b"client 10.0.0.2 1025 0 536 get /\nopen 1\nround\nround\nround\nabort 1\ngive 5\ngive 4\n";

// A request that is never decided, for as long as the server waits, and one tick less.
const PATIENT: &[u8] =
    b"client 10.0.0.2 1025 0 536 raw 474554\nopen 1\nround\nround\nround\nround\ntick 19\nround\n";

const GIVEN_UP_ON: &[u8] =
    b"client 10.0.0.2 1025 0 536 raw 474554\nopen 1\nround\nround\nround\nround\ntick 20\nround\n";

#[test]
fn replays_what_comes_late(rt: HostRuntime) -> Result<(), Fail> {
    let rows = [
        replaying(IMAGE, ELEVENTH, ELEVENTH_REPORT),
        replaying(
            IMAGE,
            GIVEN_UP,
            b"client 1 reset 0 stale\nticks 0 datagrams 5\n",
        ),
        replaying(
            IMAGE,
            PATIENT,
            b"client 1 open 0 clean\nticks 19 datagrams 4\n",
        ),
        replaying(
            IMAGE,
            GIVEN_UP_ON,
            b"client 1 reset 0 clean\nticks 20 datagrams 5\n",
        ),
    ];
    check_all(&rt, rt.alloc(), &rows)
}

// A page in segments of the greatest length.
const LONG_SEGMENTS: &[u8] =
    b"client 10.0.0.2 1025 1460 536 get /\nopen 1\nround\nround\nround\nround\nround\nround\nround\nround\n\
    round\nround\nround\n";

#[test]
fn shows_a_line_of_the_report(rt: HostRuntime) -> Result<(), Fail> {
    let alloc = rt.alloc();
    let mut long = b"UIPSITE1\0\x01\x0b/index.html\0\0\x07\xd0".to_vec(alloc)?;
    long.extend_from_slice(&[b'c'; 2000])?;
    let rows: [(&[u8], &[u8], &str); 8] = [
        (IMAGE, ELEVENTH, "\n83 0 n1 AR 87 0\n"),
        (IMAGE, LATE_SYN, "\nclient 1 closed 86 stale 1\n"),
        (IMAGE, GIVEN_UP, "\nclient 1 reset 0 stale 4\n"),
        (IMAGE, DAMAGED, "\n5 4 n1 AP 1 86 again\n"),
        (IMAGE, RESET, "\n6 0 n1 AR 1 0\n"),
        (&long, LONG_SEGMENTS, "\n4 0 n1 AP 1 1460\n"),
        (&long, LONG_SEGMENTS, "\n6 0 n1 AP 1461 620\n"),
        (&long, LONG_SEGMENTS, "\nclient 1 closed 2080 clean\n"),
    ];
    for (site, schedule, line) in rows {
        let row = Trial {
            words: &["replay", "h", "i", "show"],
            room: 65_536,
            ..replaying(site, schedule, b"")
        };
        assert!(rt; row.shows(alloc, line)?);
    }
    Ok(())
}

// If every number is used, one more datagram is refused.
#[test]
fn refuses_what_has_no_number(rt: HostRuntime) -> Result<(), Fail> {
    let alloc = rt.alloc();
    let mut schedule = b"client 10.0.0.2 1025 0 536 get /\nopen 1\n".to_vec(alloc)?;
    for _ in 0..65_535 {
        schedule.extend_from_slice(b"again 1\n")?;
    }
    let row = refused(&schedule, b"bad schedule full 65537\n", 65_537, Why::Full);
    check_all(&rt, alloc, &[row])
}

#[test]
fn replays_larger_pages(rt: HostRuntime) -> Result<(), Fail> {
    let alloc = rt.alloc();
    let mut large = LARGE_FRONT.to_vec(alloc)?;
    large.extend_from_slice(&[b'a'; 1000])?;
    let rows = [
        replaying(
            &large,
            SHRUNK_WINDOW,
            b"client 1 closed 1080 clean\nticks 4 datagrams 14\n",
        ),
        replaying(
            &large,
            REPEATS,
            b"client 1 closed 1080 clean\nticks 0 datagrams 13\n",
        ),
        replaying(
            &large,
            HONEST,
            b"client 1 closed 1080 clean\nticks 0 datagrams 12\n",
        ),
        replaying(
            &large,
            CLIENT_FIRST,
            b"client 1 ended 1080 clean\nticks 0 datagrams 12\n",
        ),
        replaying(
            STATISTICS,
            GENERATOR_AGAIN,
            b"client 1 closed 520 clean\nticks 4 datagrams 17\n",
        ),
        replaying(CONNECTIONS, FULL_TABLE, FULL_TABLE_REPORT),
        replaying(
            HITS,
            TWO,
            b"client 1 closed 90 clean\nclient 2 closed 90 clean\nticks 0 datagrams 20\n",
        ),
    ];
    check_all(&rt, alloc, &rows)
}

#[test]
fn refuses_schedules(rt: HostRuntime) -> Result<(), Fail> {
    let alloc = rt.alloc();
    let long = vec![in alloc; b'\n'; 4_194_305]?;
    let rows = [
        refused(&long, b"bad schedule long 0\n", 0, Why::Long),
        refused(b"tick 0\n", b"bad schedule form 1\n", 1, Why::Form),
        refused(b"round \n", b"bad schedule form 1\n", 1, Why::Form),
        refused(
            b"client 10.0.0.2 1025 0 536 get /\nclient 10.0.0.2 1025 0 536 get /\n",
            b"bad schedule ports 2\n",
            2,
            Why::Ports,
        ),
        refused(
            b"client 10.0.0.2 1025 0 536 get /\nopen 2\n",
            b"bad schedule client 2\n",
            2,
            Why::NoClient,
        ),
        refused(
            b"client 10.0.0.2 1025 0 536 get /\nopen 1\ngive 2\n",
            b"bad schedule datagram 3\n",
            3,
            Why::NoDatagram,
        ),
        refused(
            b"client 10.0.0.2 1025 0 536 get /\ngive 1\nopen 1\n",
            b"bad schedule datagram 2\n",
            2,
            Why::NoDatagram,
        ),
        refused(
            b"client 10.0.0.2 1025 0 536 get /\nopen 1\nround\nround\nround\ndamage 4 126 1\n",
            b"bad schedule byte 6\n",
            6,
            Why::NoByte,
        ),
        replaying(&IMAGE[..15], b"tick 0\n", b"bad site cut 1\n").ending(bad(SiteWhy::Cut, 1)),
    ];
    check_all(&rt, alloc, &rows)
}

#[test]
fn asks_for_both_files(rt: HostRuntime) -> Result<(), Fail> {
    let lacking = replaying(IMAGE, PAGE, b"").ending(Status::ShelfFault);
    let rows = [
        Trial {
            words: &["replay", "g", "i"],
            ..lacking
        },
        Trial {
            words: &["replay", "h", "g"],
            ..lacking
        },
        Trial {
            words: &["replay", "h", "g"],
            h: b"UIPSITE",
            ..lacking
        },
        Trial {
            words: &["replay", "-", "g"],
            ..lacking
        },
        Trial {
            shelf_fails: &[1],
            ..lacking
        },
        Trial {
            shelf_fails: &[3],
            ..lacking
        },
    ];
    check_all(&rt, rt.alloc(), &rows)
}
