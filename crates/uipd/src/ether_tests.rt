// Lines of Ethernet frames, over a link and a sink in memory, with the items cut in every way.
// [add: line-kind] A file as this one: exchanges through `run`.
use crate::harness::{Session, Trial, both_of, bytes_of, check_bad_words, check_sessions, prefix};
use crate::status::Status;
use std::test::Fail;

pub const ETHER: [&str; 4] = ["ether", "-", "10.0.0.1", "02:00:00:00:00:01"];

// A request of 10.0.0.2 at 02:00:00:00:00:02 for the address of the host, and its reply.
pub const REQUEST: &str = "\
    002A FFFFFFFFFFFF 020000000002 0806 \
    0001 0800 0604 0001 020000000002 0A000002 000000000000 0A000001";

pub const REPLY: &str = "\
    002A 020000000002 020000000001 0806 \
    0001 0800 0604 0002 020000000001 0A000001 020000000002 0A000002";

// An echo request of the same, and the echo reply.
const PING: &str = "\
    002A 020000000001 020000000002 0800 \
    4500001C 00010000 400166DE 0A000002 0A000001 0800F7FD 00010001";

const PONG: &str = "\
    002A 020000000002 020000000001 0800 \
    4500001C 00010000 400166DE 0A000001 0A000002 0000FFFD 00010001";

// The host's request for the address of 10.0.0.2, and its reply.
const QUESTION: &str = "\
    002A FFFFFFFFFFFF 020000000001 0806 \
    0001 0800 0604 0001 020000000001 0A000001 000000000000 0A000002";

const ANSWER: &str = "\
    002A 020000000001 020000000002 0806 \
    0001 0800 0604 0002 020000000002 0A000002 020000000001 0A000001";

// The echo request with 18 bytes after it.
const PADDED_PING: &str = "\
    003C 020000000001 020000000002 0800 \
    4500001C 00010000 400166DE 0A000002 0A000001 0800F7FD 00010001 000000000000000000000000000000000000";

// The request in a frame to another host, and a request for another address.
const FOREIGN_FRAME: &str = "\
    002A 020000000003 020000000002 0806 \
    0001 0800 0604 0001 020000000002 0A000002 000000000000 0A000001";

const FOREIGN_REQUEST: &str = "\
    002A FFFFFFFFFFFF 020000000002 0806 \
    0001 0800 0604 0001 020000000002 0A000002 000000000000 0A000009";

// A frame of 13 bytes.
const RUNT: &str = "000D 020000000001 020000000002 08";

// The request without its last byte.
const CUT_REQUEST: &str = "\
    002A FFFFFFFFFFFF 020000000002 0806 \
    0001 0800 0604 0001 020000000002 0A000002 000000000000 0A0000";

#[test]
fn answers_frames(rt: HostRuntime) -> Result<(), Fail> {
    let sessions: [Session; 10] = [
        (&[REQUEST], &[REPLY]),
        (&[PING], &[QUESTION]),
        (&[REQUEST, PING], &[REPLY, PONG]),
        (&[ANSWER, PADDED_PING], &[PONG]),
        (&[FOREIGN_FRAME, PING], &[QUESTION]),
        (&[FOREIGN_REQUEST, PING], &[QUESTION]),
        (&[RUNT, REQUEST], &[REPLY]),
        (&["0000", REQUEST], &[REPLY]),
        (&[CUT_REQUEST], &[""]),
        (&[RUNT], &[""]),
    ];
    check_sessions(&rt, rt.alloc(), &ETHER, &sessions)
}

#[test]
fn drops_a_long_frame(rt: HostRuntime) -> Result<(), Fail> {
    let alloc = rt.alloc();
    let mut input = [5, 0xEB].to_vec(alloc)?;
    input.extend_from_slice(&[2; 1515])?;
    let cut = input.clone()?;
    input.extend_from_slice(&bytes_of(alloc, &[REQUEST])?)?;
    let reply = bytes_of(alloc, &[REPLY])?;
    Trial::new(&ETHER, &input, &reply).check_cuts(&rt, alloc)?;
    Trial::new(&ETHER, prefix(&cut, 1000), &[]).check(&rt, alloc, 4096)
}

#[test]
fn counts_all_bytes(rt: HostRuntime) -> Result<(), Fail> {
    let alloc = rt.alloc();
    let (asked, known) = both_of(alloc, &[REQUEST, PING], &[REPLY, PONG])?;
    // Each byte is a tick: after 2400 more the address is forgotten.
    let request = bytes_of(alloc, &[REQUEST])?;
    let mut later = request.clone()?;
    later.extend_from_slice(&[0; 2400])?;
    later.extend_from_slice(&bytes_of(alloc, &[PING])?)?;
    let forgotten = bytes_of(alloc, &[REPLY, QUESTION])?;
    let words = ["ether", "-", "10.0.0.1", "02:00:00:00:00:01", "pace", "1"];
    Trial::new(&words, &asked, &known).check(&rt, alloc, 4096)?;
    Trial::new(&words, &later, &forgotten).check(&rt, alloc, 4096)?;
    let words = ["ether", "-", "10.0.0.1", "02:00:00:00:00:01", "items", "43"];
    Trial::new(&words, &request, &[])
        .ending(Status::Budget)
        .check(&rt, alloc, 4096)
}

#[test]
fn knows_its_words(rt: HostRuntime) -> Result<(), Fail> {
    let alloc = rt.alloc();
    let bad: [&[&str]; 7] = [
        &["ether", "-", "10.0.0.1"],
        &["ether", "-", "10.0.0.256", "02:00:00:00:00:01"],
        &["ether", "-", "10.0.0.1", "02:00:00:00:00"],
        &["ether", "-", "10.0.0.1", "02-00-00-00-00-01"],
        &["ether", "-", "10.0.0.1", "02:00:00:00:00:0G"],
        &["ether", "-", "10.0.0.1", "2:0:0:0:0:1"],
        &[
            "ether",
            "-",
            "10.0.0.1",
            "02:00:00:00:00:01",
            "tty",
            "pace",
            "1",
        ],
    ];
    check_bad_words(&rt, alloc, REQUEST, &bad)?;
    let upper = ["ether", "-", "10.0.0.1", "02:00:00:00:00:01", "tty"];
    check_sessions(&rt, alloc, &upper, &[(&[REQUEST], &[REPLY])])
}
