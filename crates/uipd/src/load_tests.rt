// The schedules of seeds, played by the site of the file `h`. The first one's line was worked out without this code.
use crate::harness::{IMAGE, Trial, bad, check_all, check_bad_words};
use crate::status::Status;
use crate::tests::PING;
use site_commands::SiteWhy;
use std::test::Fail;

const LOADED: &[u8] =
    b"closed 11 open 2 reset 1 other 2 stale 0 bytes 1023 datagrams 249 again 48\n";

const LOAD: [&str; 4] = ["load", "h", "7", "16"];

#[test]
fn plays_a_made_schedule(rt: HostRuntime) -> Result<(), Fail> {
    let loading = Trial::over(&LOAD, IMAGE, LOADED, Status::Done);
    let trials = [
        loading,
        loading,
        Trial {
            h: &IMAGE[..15],
            output: b"bad site cut 1\n",
            status: bad(SiteWhy::Cut, 1),
            ..loading
        },
        Trial {
            room: 10,
            output: &LOADED[..10],
            status: Status::WriteFault,
            ..loading
        },
        Trial {
            shelf_fails: &[1],
            output: b"",
            status: Status::ShelfFault,
            ..loading
        },
        Trial::over(&["load", "g", "7", "16"], IMAGE, b"", Status::ShelfFault),
    ];
    check_all(&rt, rt.alloc(), &trials)
}

#[test]
fn knows_the_words_of_load(rt: HostRuntime) -> Result<(), Fail> {
    let bad: [&[&str]; 8] = [
        &["load"],
        &["load", "h", "7"],
        &["load", "h", "7", "16", "show"],
        &["load", "h", "7", "0"],
        &["load", "h", "7", "65"],
        &["load", "h", "7", "016"],
        &["load", "h", "-7", "16"],
        &["load", "h", "18446744073709551616", "16"],
    ];
    check_bad_words(&rt, rt.alloc(), PING, &bad)
}
