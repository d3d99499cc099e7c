// A link that loses one datagram of five, in both directions: in how many ticks the page of a client arrives. By the law of arrival
// the FIN follows at the latest when the SYN was sent again for 102 ticks and the text of the page for 249.
use file_tree::Site;
use link_client::ClientState;
use link_replay::{Act, Event, Schedule, World};
use std::alloc::Global;
use std::process::Abort;
use std::test::Fail;

const IMAGE: &[u8] = b"UIPSITE1\0\x01\x0b/index.html\0\0\0\x06hello\n";

const CLIENT: &[u8] = b"client 10.0.0.2 1025 0 536 get /\n";

const MOST_TICKS: u32 = 102 + 249;

/// Returns a world whose client has sent its SYN.
fn opened(rt: &impl Abort, alloc: Global) -> Result<World, Fail> {
    let (Ok(site), Ok(schedule)) = (Site::read(alloc, IMAGE), Schedule::read(alloc, CLIENT)) else {
        return Err("no memory".into());
    };
    let Ok(mut world) = World::new(alloc, &schedule, site) else {
        return Err("no memory".into());
    };
    assert_eq!(rt; world.line(&Event::Opens(1)), Ok(()));
    Ok(world)
}

/// Returns the next number of a sequence (the constants are those of MMIX).
fn next(coin: u64) -> u64 {
    coin.wrapping_mul(6_364_136_223_846_793_005)
        .wrapping_add(1_442_695_040_888_963_407)
}

/// Delivers each datagram after the given ones, or loses it; returns how many are given or lost then.
fn deliver(rt: &impl Abort, world: &mut World, before: u32, coin: &mut u64) -> u32 {
    let mut given = before;
    for _ in 0..64 {
        if given as usize >= world.sent().len() {
            return given;
        }
        given = given.saturating_add(1);
        *coin = next(*coin);
        if (*coin >> 33) % 5 != 0 {
            assert_eq!(rt; world.step(&Act::Give(given)), Ok(()));
        }
    }
    given
}

/// Returns the ticks until the client has the FIN after its page. It sends again every third tick.
fn ticks_until_closed(rt: &impl Abort, alloc: Global, seed: u64) -> Result<u32, Fail> {
    let mut world = opened(rt, alloc)?;
    let mut coin = seed;
    let mut given = 0;
    for tick in 0..MOST_TICKS {
        given = deliver(rt, &mut world, given, &mut coin);
        assert!(rt; world.sides.len() == 1);
        if world.client(1).state == ClientState::Closed {
            assert!(rt; world.received(1).ends_with(b"hello\n"));
            return Ok(tick);
        }
        assert_eq!(rt; world.step(&Act::Tick), Ok(()));
        if tick % 3 == 2 {
            assert_eq!(rt; world.step(&Act::Again(1)), Ok(()));
        }
    }
    Err("the page did not arrive".into())
}

#[test]
fn pages_arrive_over_a_link_that_loses_a_fifth(rt: HostRuntime) -> Result<(), Fail> {
    let alloc = rt.alloc();
    for seed in 0..200u64 {
        let ticks = ticks_until_closed(&rt, alloc, seed)?;
        assert!(rt; ticks < MOST_TICKS);
    }
    Ok(())
}
