// The desk over a line: sessions with the shell worked by hand, pages beside them, and its words.
use crate::harness::{Session, Trial, both_of, check_bad_words, check_sessions};
use crate::status::Status;
use crate::tests::{GET, PAGE, PING, PONG, SERVE, SYN as WEB_SYN, SYN_ACK as WEB_SYN_ACK};
use std::test::Fail;

const DESK: [&str; 3] = ["desk", "-", "10.0.0.1"];

// A SYN to port 23, its answer, and its RST if only pages are served.
const SYN: &str =
    "C0 45000028 00010000 400666CD 0A000002 0A000001 04010017 000003E8 00000000 50022000 73E00000 C0";

const SYN_ACK: &str = "\
    C0 4500002C 00010000 400666C9 0A000001 0A000002 00170401 00000000 000003E9 601205B4 765F0000 \
    020405B4 C0";

const REFUSAL: &str =
    "C0 45000028 00010000 400666CD 0A000001 0A000002 00170401 00000000 000003E9 50140000 93CD0000 C0";

// `ticks` CR LF, and the reply at tick 0.
const TICKS: &str = "\
    C0 4500002F 00010000 400666C6 0A000002 0A000001 04010017 000003E9 00000001 50182000 1EDF0000 \
    7469636B 730D0A C0";

const TICKS_SAID: &str = "\
    C0 45000036 00020000 400666BE 0A000001 0A000002 00170401 00000001 000003F0 501805B4 A2240000 \
    20202020 20202020 20300D0A 3E20 C0";

// An offer of an option and `quit` LF, and the reply; its acknowledgement, and the FIN after it.
const QUIT: &str = "\
    C0 45000030 00010000 400666C5 0A000002 0A000001 04010017 000003E9 00000001 50182000 88DF0000 \
    FFFB0171 7569740A C0";

const QUIT_SAID: &str = "\
    C0 45000030 00020000 400666C4 0A000001 0A000002 00170401 00000001 000003F1 501805B4 06340000 \
    FFFE0162 79650D0A C0";

const QUIT_TAKEN: &str = "\
    C0 45000028 00010000 400666CD 0A000002 0A000001 04010017 000003F1 00000009 50102000 73DBDC00 \
    00 C0";

const FIN_SAID: &str =
    "C0 45000028 00030000 400666CB 0A000001 0A000002 00170401 00000009 000003F1 501105B4 8E0B0000 C0";

// The headers of a datagram with 33 lines `help` LF, such a line, and the RST by which it is given up.
const HELPS_HEAD: &str =
    "C0 450000CD 00010000 40066628 0A000002 0A000001 04010017 000003E9 00000001 50182000 49020000";

const HELP: &str = "68656C70 0A";

const RESET: &str =
    "C0 45000028 00020000 400666CC 0A000001 0A000002 00170401 00000001 0000048E 50140000 93270000 C0";

#[test]
fn answers_as_a_server_and_as_a_shell(rt: HostRuntime) -> Result<(), Fail> {
    let alloc = rt.alloc();
    let mut helps = [SYN, HELPS_HEAD].to_vec(alloc)?;
    helps.extend_from_slice(&[HELP; 33])?;
    helps.push("C0")?;
    let sessions: [Session; 4] = [
        (&[PING], &[PONG]),
        (&[SYN, TICKS], &[SYN_ACK, TICKS_SAID]),
        (&[SYN, QUIT, QUIT_TAKEN], &[SYN_ACK, QUIT_SAID, FIN_SAID]),
        (&helps, &[SYN_ACK, RESET]),
    ];
    check_sessions(&rt, alloc, &DESK, &sessions)?;
    // `serve` has no shell.
    check_sessions(&rt, alloc, &SERVE, &[(&[SYN], &[REFUSAL])])
}

#[test]
fn serves_pages_beside_the_shell(rt: HostRuntime) -> Result<(), Fail> {
    let words = ["desk", "h", "10.0.0.1"];
    check_sessions(
        &rt,
        rt.alloc(),
        &words,
        &[(&[WEB_SYN, GET], &[WEB_SYN_ACK, PAGE])],
    )
}

#[test]
fn knows_the_words_of_the_desk(rt: HostRuntime) -> Result<(), Fail> {
    let alloc = rt.alloc();
    let bad: [&[&str]; 6] = [
        &["desk"],
        &["desk", "-"],
        &["desk", "10.0.0.1"],
        &["desk", "-", "10.0.0.256"],
        &["desk", "-", "10.0.0.1", "02:00:00:00:00:01"],
        &["desk", "-", "10.0.0.1", "items", "2", "pace", "3"],
    ];
    check_bad_words(&rt, alloc, PING, &bad)?;
    let (ping, pong) = both_of(alloc, &[PING], &[PONG])?;
    let words = ["desk", "-", "10.0.0.1", "pace", "62", "items", "30", "tty"];
    Trial::new(&words, &ping, &pong)
        .ending(Status::Budget)
        .check(&rt, alloc, 4096)?;
    Trial::new(&["desk", "missing", "10.0.0.1"], &ping, &[])
        .ending(Status::ShelfFault)
        .check(&rt, alloc, 4096)
}
