// A world line by line and act by act: what it reports of its clients and datagrams, against values that were worked out
// without this code. Its site has one file, whose page has 86 bytes.
use file_tree::Site;
use link_client::ClientState;
use link_replay::{Act, Event, Schedule, Who, World};
use std::alloc::Global;
use std::process::Abort;
use std::test::Fail;
use uip_edge::MemSink;

const IMAGE: &[u8] = b"UIPSITE1\0\x01\x0b/index.html\0\0\0\x06hello\n";

// The first client requests the page; the second never opens.
const CLIENTS: &[u8] = b"\
client 10.0.0.2 1025 0 536 get /\n\
client 10.0.0.3 1025 0 536 get /\n";

const PAGE: &[u8] = b"\
HTTP/1.0 200 OK\r\nServer: uIP/1.0\r\nConnection: close\r\nContent-type: text/html\r\n\r\nhello\n";

// The bytes of each datagram of the exchange: the client's SYN without an option, its answer with one, the request of 18
// bytes, the page, and four segments without text.
const LENGTHS: [usize; 8] = [40, 44, 58, 126, 40, 40, 40, 40];

/// Returns the world that the clients' lines reach in which the first one opens and twelve rounds follow.
fn served(rt: &impl Abort, alloc: Global) -> Result<World, Fail> {
    let (Ok(site), Ok(schedule)) = (Site::read(alloc, IMAGE), Schedule::read(alloc, CLIENTS)) else {
        return Err("no memory".into());
    };
    let Ok(mut world) = World::new(alloc, &schedule, site) else {
        return Err("no memory".into());
    };
    assert_eq!(rt; world.line(&Event::Opens(1)), Ok(()));
    for _ in 0..12 {
        assert_eq!(rt; world.line(&Event::Round), Ok(()));
    }
    Ok(world)
}

#[test]
fn a_page_is_received_line_by_line(rt: HostRuntime) -> Result<(), Fail> {
    let world = served(&rt, rt.alloc())?;
    assert!(rt; world.sides.len() == 2);
    assert_eq!(rt; world.received(1), PAGE);
    assert!(rt; world.clean(1));
    assert_eq!(rt; world.first_stale(1), None);
    assert_eq!(rt; world.client(1).state, ClientState::Closed);
    assert_eq!(rt; world.client(1).acked, 18);
    assert_eq!(rt; world.client(2).state, ClientState::Idle);
    assert!(rt; world.received(2).is_empty());
    assert_eq!(rt; world.ticks(), 0);
    Ok(())
}

#[test]
fn each_datagram_of_a_page_is_kept(rt: HostRuntime) -> Result<(), Fail> {
    let world = served(&rt, rt.alloc())?;
    assert_eq!(rt; world.sent().len(), LENGTHS.len());
    for (sent, (at, len)) in world.sent().iter().zip(LENGTHS.iter().enumerate()) {
        let who = if matches!(at, 1 | 3 | 5 | 7) {
            Who::FromNode(1)
        } else {
            Who::FromClient(1)
        };
        assert_eq!(rt; sent.who, who);
        assert_eq!(rt; sent.bytes.len(), *len);
        assert!(rt; !sent.again);
    }
    Ok(())
}

#[test]
fn a_late_syn_makes_its_client_stale(rt: HostRuntime) -> Result<(), Fail> {
    let alloc = rt.alloc();
    let mut world = served(&rt, alloc)?;
    for _ in 0..120 {
        assert_eq!(rt; world.step(&Act::Tick), Ok(()));
    }
    assert_eq!(rt; world.step(&Act::Give(1)), Ok(()));
    assert!(rt; world.sides.len() == 2);
    assert!(rt; !world.clean(1));
    assert_eq!(rt; world.first_stale(1), Some(1));
    assert!(rt; world.clean(2));
    assert_eq!(rt; world.ticks(), 120);
    let (Ok(mut report), Ok(mut summary)) = (
        MemSink::new(alloc, 256, Vec::new(alloc)),
        MemSink::new(alloc, 256, Vec::new(alloc)),
    ) else {
        return Err("no memory".into());
    };
    assert!(rt; world.report(false, &mut report).is_ok());
    let expected: &[u8] =
        b"client 1 closed 86 stale\nclient 2 idle 0 clean\nticks 120 datagrams 9\n";
    assert_eq!(rt; report.written(), expected);
    assert!(rt; world.summary(&mut summary).is_ok());
    let expected: &[u8] = b"closed 1 open 0 reset 0 other 1 stale 1 bytes 86 datagrams 9 again 0\n";
    assert_eq!(rt; summary.written(), expected);
    Ok(())
}
