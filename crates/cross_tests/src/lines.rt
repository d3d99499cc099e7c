// Lines served by a node of the fixed greeting and by one of `Counter`, whose connections share a count.
use crate::talking::{GREETING, NODE, REQUEST, SENT_AGAIN, SYN, SYN_ACK, bytes_of};
use crate::{Counter, Tally};
use app_events::{App, Fixed};
use serve_loop::serve;
use std::alloc::Global;
use std::process::Abort;
use std::test::Fail;
use uip_edge::{Item, MemSink, ServeEnd, SureLink};
use uip_node::Node;

/// Two clients of `Counter`: each opens, and sends one byte.
const ASKED: [&str; 4] = [
    "45000028 00010000 400666CD 0A000002 0A000001 04010007 000003E8 00000000 50022000 73F00000",
    "45000028 00010000 400666CD 0A000002 0A000001 04020007 00001388 00000000 50022000 644F0000",
    "45000029 00020000 400666CB 0A000002 0A000001 04010007 000003E9 00000001 50182000 FBD60000 78",
    "45000029 00020000 400666CB 0A000002 0A000001 04020007 00001389 00000001 50182000 EC350000 78",
];

/// Both are opened, and receive their numbers.
const NUMBERED: [&str; 4] = [
    "4500002C 00010000 400666C9 0A000001 0A000002 00070401 00000000 000003E9 601205B4 766F0000 020405B4",
    "4500002C 00020000 400666C8 0A000001 0A000002 00070402 00000000 00001389 601205B4 66CE0000 020405B4",
    "4500002A 00030000 400666C9 0A000001 0A000002 00070401 00000001 000003EA 501805B4 8E170000 000A",
    "4500002A 00040000 400666C8 0A000001 0A000002 00070402 00000001 0000138A 501805B4 7D760000 010A",
];

/// The input of a line: frames, then a number of ENDs, then a number of silences; its pace; and what is sent.
#[derive(Drop)]
struct Exchange<'a> {
    frames: &'a [&'a str],
    ends: usize,
    silences: usize,
    pace: u64,
    sent: &'a [&'a str],
}

impl<'a> Exchange<'a> {
    /// Frames alone, at no pace.
    fn new(frames: &'a [&'a str], sent: &'a [&'a str]) -> Exchange<'a> {
        Exchange {
            frames,
            ends: 0,
            silences: 0,
            pace: 0,
            sent,
        }
    }
}

/// Returns the text of frames in which no byte is escaped.
fn text_of(alloc: Global, frames: &[&str]) -> Result<Vec<u8>, Fail> {
    let mut text = Vec::new(alloc);
    for frame in frames {
        text.push(0xC0)?;
        text.extend_from_slice(&bytes_of(alloc, frame)?)?;
        text.push(0xC0)?;
    }
    Ok(text)
}

fn items_of(alloc: Global, exchange: &Exchange) -> Result<Vec<Item>, Fail> {
    let mut items = Vec::new(alloc);
    for byte in text_of(alloc, exchange.frames)? {
        items.push(Item::Byte(byte))?;
    }
    for _ in 0..exchange.ends {
        items.push(Item::Byte(0xC0))?;
    }
    for _ in 0..exchange.silences {
        items.push(Item::Quiet)?;
    }
    Ok(items)
}

/// Serves the line by a new node, with at most `most` bytes per read of the link.
fn check<A: App>(
    rt: &impl Abort,
    alloc: Global,
    shared: A::Shared,
    exchange: &Exchange,
    most: usize,
) -> Result<(), Fail> {
    let mut link = SureLink::new(items_of(alloc, exchange)?, most.max(1));
    let Ok(mut sink) = MemSink::new(alloc, 4096, Vec::new(alloc)) else {
        return Err("no memory".into());
    };
    let Ok(mut node) = Node::<A>::new(alloc, NODE, shared) else {
        return Err("no memory".into());
    };
    let end = serve(&mut node, &mut link, &mut sink, exchange.pace, u64::MAX);
    assert_eq!(rt; end, ServeEnd::End);
    let sent = text_of(alloc, exchange.sent)?;
    assert_eq!(rt; sink.written(), sent.as_slice());
    Ok(())
}

#[test]
fn greets_and_sends_again(rt: HostRuntime) -> Result<(), Fail> {
    let exchanges = [
        Exchange::new(&[SYN, REQUEST], &[SYN_ACK, GREETING]),
        // Four silences are four ticks.
        Exchange {
            silences: 4,
            ..Exchange::new(&[SYN], &[SYN_ACK, SENT_AGAIN])
        },
        // So are four times 62 bytes, of which the first 62 are the frame.
        Exchange {
            ends: 186,
            pace: 62,
            ..Exchange::new(&[SYN], &[SYN_ACK, SENT_AGAIN])
        },
        Exchange {
            ends: 185,
            pace: 62,
            ..Exchange::new(&[SYN], &[SYN_ACK])
        },
        Exchange {
            ends: 186,
            ..Exchange::new(&[SYN], &[SYN_ACK])
        },
    ];
    for exchange in &exchanges {
        check::<Fixed>(&rt, rt.alloc(), (), exchange, 1)?;
        check::<Fixed>(&rt, rt.alloc(), (), exchange, 4096)?;
    }
    Ok(())
}

#[test]
fn numbers_its_clients(rt: HostRuntime) -> Result<(), Fail> {
    let exchange = Exchange::new(&ASKED, &NUMBERED);
    let tally = Tally { spoken: 0 };
    check::<Counter>(&rt, rt.alloc(), tally, &exchange, 4096)
}
