use crate::{ReadSchedule, Schedule, Why};
use std::alloc::Global;

fn refusal(alloc: Global, text: &[u8]) -> Option<ReadSchedule> {
    match Schedule::read(alloc, text) {
        Ok(_) => None,
        Err(refusal) => Some(refusal),
    }
}

#[test]
fn reads_to_the_first_bad_line(rt: HostRuntime) {
    let good: &[u8] =
        b"# one page\n\nclient 10.0.0.2 1025 0 536 get /\nopen 1\nround\ngive 4294967295\n";
    assert_eq!(rt; refusal(rt.alloc(), good), None);
    let rows: [(&[u8], u32, Why); 3] = [
        (b"round\r\nopen 1\n", 1, Why::Form),
        (
            b"client 10.0.0.2 1025 0 536 raw 474554\nping 10.0.0.9\nopen 99999999999999999999",
            3,
            Why::NoClient,
        ),
        (
            b"client 10.0.0.2 1025 0 536 get /\nclient 10.0.0.2 1025 536 1 get /a",
            2,
            Why::Ports,
        ),
    ];
    for (text, line, why) in rows {
        assert_eq!(rt;
            refusal(rt.alloc(), text),
            Some(ReadSchedule::Bad { line, why })
        );
    }
}
