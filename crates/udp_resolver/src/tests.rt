// Worked exchanges over a link and sinks in memory, with the items cut in every way, and replies of random bytes.
use crate::{MOST_NAMES, Name, resolve};
use arrayvec::ArrayVec;
use packet_buffer::Packet;
use std::alloc::{AllocError, Global};
use std::process::Abort;
use std::test::Fail;
use udp_datagram::{UdpFlow, udp_datagram};
use uip_edge::{Item, MemLink, MemSink, ServeEnd};
use uip_slip::encode;
use uip_wire::{Addr, Port};

// The query for a.b from 10.0.0.1 to 10.0.0.2 with the id 1, and a reply to it with the address 192.0.2.7.
const QUERY: [u8; 49] = [
    0x45, 0x00, 0x00, 0x31, 0x00, 0x01, 0x00, 0x00, 0x40, 0x11, 0x66, 0xB9, 0x0A, 0x00, 0x00, 0x01,
    0x0A, 0x00, 0x00, 0x02, 0x10, 0x00, 0x00, 0x35, 0x00, 0x1D, 0xD5, 0xB7, 0x00, 0x01, 0x01, 0x00,
    0x00, 0x01, 0x00, 0x00, 0x00, 0x00, 0x00, 0x00, 0x01, 0x61, 0x01, 0x62, 0x00, 0x00, 0x01, 0x00,
    0x01,
];

const REPLY: [u8; 65] = [
    0x45, 0x00, 0x00, 0x41, 0x00, 0x01, 0x00, 0x00, 0x40, 0x11, 0x66, 0xA9, 0x0A, 0x00, 0x00, 0x02,
    0x0A, 0x00, 0x00, 0x01, 0x00, 0x35, 0x10, 0x00, 0x00, 0x2D, 0x00, 0x00, 0x00, 0x01, 0x81, 0x80,
    0x00, 0x01, 0x00, 0x01, 0x00, 0x00, 0x00, 0x00, 0x01, 0x61, 0x01, 0x62, 0x00, 0x00, 0x01, 0x00,
    0x01, 0xC0, 0x0C, 0x00, 0x01, 0x00, 0x01, 0x00, 0x00, 0x00, 0x3C, 0x00, 0x04, 0xC0, 0x00, 0x02,
    0x07,
];

/// The input of a run, and its expected output.
#[derive(Clone, Copy, Drop)]
struct Row<'a> {
    names: &'a [&'a [u8]],
    items: &'a [Item],
    most: usize,
    budget: u64,
    link_fails: &'a [u64],
    out_fails: &'a [u64],
    report_fails: &'a [u64],
    end: ServeEnd,
    queries: usize,
    expected: &'a [u8],
}

fn row_of<'a>(items: &'a [Item], end: ServeEnd, queries: usize, expected: &'a [u8]) -> Row<'a> {
    Row {
        names: &[b"a.b"],
        items,
        most: 4096,
        budget: u64::MAX,
        link_fails: &[],
        out_fails: &[],
        report_fails: &[],
        end,
        queries,
        expected,
    }
}

fn sink(alloc: Global, fails: &[u64]) -> Result<MemSink, Fail> {
    match MemSink::new(alloc, 8192, fails.to_vec(alloc)?) {
        Ok(sink) => Ok(sink),
        Err(_) => Err("no memory".into()),
    }
}

/// The texts of the query, sent `count` times.
fn query_texts(alloc: Global, count: usize) -> Result<MemSink, Fail> {
    let mut texts = sink(alloc, &[])?;
    for at in 0..count {
        let mut query = QUERY;
        let again = (at % 16) as u8;
        query[5] = again + 1;
        query[11] = 0xB9 - again;
        if encode(&query, &mut texts).is_err() {
            return Err("no room".into());
        }
    }
    Ok(texts)
}

/// Runs a row, and returns the report and what was written to the line.
fn reported_by(alloc: Global, row: &Row) -> Result<(ServeEnd, MemSink, MemSink), Fail> {
    let mut names: ArrayVec<Name, MOST_NAMES> = ArrayVec::new();
    for text in row.names {
        let Some(name) = Name::parse(text) else {
            return Err("no name".into());
        };
        let _ = names.try_push(name);
    }
    let Ok(mut packet) = Packet::new(alloc, 1500) else {
        return Err("no memory".into());
    };
    let mut link = MemLink::new(
        row.items.to_vec(alloc)?,
        row.most.max(1),
        row.link_fails.to_vec(alloc)?,
    );
    let mut out = sink(alloc, row.out_fails)?;
    let mut tell = sink(alloc, row.report_fails)?;
    let own = Addr([10, 0, 0, 1]);
    let server = Addr([10, 0, 0, 2]);
    let end = resolve(
        &mut packet,
        own,
        server,
        1,
        &names,
        &mut link,
        &mut out,
        &mut tell,
        row.budget,
    );
    Ok((end, out, tell))
}

fn check(rt: &impl Abort, alloc: Global, row: &Row) -> Result<(), Fail> {
    let (end, out, tell) = reported_by(alloc, row)?;
    assert_eq!(rt; end, row.end);
    assert_eq!(rt; tell.written(), row.expected);
    let queries = query_texts(alloc, row.queries)?;
    assert_eq!(rt; out.written(), queries.written());
    Ok(())
}

/// The frame of a datagram as items.
fn framed(alloc: Global, datagram: &[u8]) -> Result<Vec<Item>, Fail> {
    let mut text = sink(alloc, &[])?;
    if encode(datagram, &mut text).is_err() {
        return Err("no room".into());
    }
    let mut items = Vec::new(alloc);
    for byte in text.written() {
        items.push(Item::Byte(*byte))?;
    }
    Ok(items)
}

fn silences(alloc: Global, count: usize) -> Result<Vec<Item>, AllocError> {
    let mut items = Vec::new(alloc);
    for _ in 0..count {
        items.push(Item::Quiet)?;
    }
    Ok(items)
}

#[test]
fn reports_the_address_for_every_cut(rt: HostRuntime) -> Result<(), Fail> {
    let alloc = rt.alloc();
    let good = framed(alloc, &REPLY)?;
    let mut other = REPLY;
    other[29] = 2;
    let other = framed(alloc, &other)?;
    for most in 1..=good.len() {
        check(
            &rt,
            alloc,
            &Row {
                most,
                ..row_of(&good, ServeEnd::End, 1, b"a.b 192.0.2.7\n")
            },
        )?;
        check(
            &rt,
            alloc,
            &Row {
                most,
                ..row_of(&other, ServeEnd::End, 1, b"a.b open\n")
            },
        )?;
    }
    Ok(())
}

#[test]
fn gives_up_after_249_silences(rt: HostRuntime) -> Result<(), Fail> {
    let alloc = rt.alloc();
    let items = silences(alloc, 260)?;
    check(
        &rt,
        alloc,
        &row_of(&items, ServeEnd::End, 9, b"a.b timeout\n"),
    )?;
    check(
        &rt,
        alloc,
        &Row {
            budget: 249,
            ..row_of(&items, ServeEnd::End, 9, b"a.b timeout\n")
        },
    )?;
    check(
        &rt,
        alloc,
        &Row {
            budget: 248,
            ..row_of(&items, ServeEnd::Budget, 9, b"a.b open\n")
        },
    )?;
    check(
        &rt,
        alloc,
        &Row {
            budget: 0,
            ..row_of(&items, ServeEnd::Budget, 1, b"a.b open\n")
        },
    )
}

#[test]
fn each_fault_has_its_answer(rt: HostRuntime) -> Result<(), Fail> {
    let alloc = rt.alloc();
    let good = framed(alloc, &REPLY)?;
    let quiet = silences(alloc, 20)?;
    check(
        &rt,
        alloc,
        &Row {
            link_fails: &[1],
            ..row_of(&good, ServeEnd::LinkFault, 1, b"")
        },
    )?;
    check(
        &rt,
        alloc,
        &Row {
            out_fails: &[1],
            ..row_of(&good, ServeEnd::WriteFault, 0, b"")
        },
    )?;
    check(
        &rt,
        alloc,
        &Row {
            out_fails: &[3],
            ..row_of(&quiet, ServeEnd::WriteFault, 2, b"")
        },
    )?;
    check(
        &rt,
        alloc,
        &Row {
            report_fails: &[1],
            ..row_of(&good, ServeEnd::WriteFault, 1, b"")
        },
    )
}

#[test]
fn ignores_each_part_of_a_reply(rt: HostRuntime) -> Result<(), Fail> {
    let alloc = rt.alloc();
    for len in 1..REPLY.len() {
        let part = framed(alloc, &REPLY[..len])?;
        check(&rt, alloc, &row_of(&part, ServeEnd::End, 1, b"a.b open\n"))?;
    }
    Ok(())
}

/// The next of a sequence of pseudo-random numbers.
fn next_number(state: &mut u32) -> u8 {
    *state = state.wrapping_mul(1103515245).wrapping_add(12345);
    (*state >> 24) as u8
}

/// The head of the reply and its question, followed by answer records of random bytes.
fn random_reply(alloc: Global, state: &mut u32) -> Result<Vec<u8>, AllocError> {
    let mut message = REPLY[28..49].to_vec(alloc)?;
    message[7] = next_number(state) % 4;
    for _ in 0..next_number(state) % 64 {
        // Small bytes make short labels, types and lengths.
        let byte = next_number(state);
        message.push(if byte < 160 { byte % 5 } else { byte })?;
    }
    Ok(message)
}

#[test]
fn takes_random_records(rt: HostRuntime) -> Result<(), Fail> {
    let alloc = rt.alloc();
    let way = UdpFlow {
        source: Addr([10, 0, 0, 2]),
        target: Addr([10, 0, 0, 1]),
        from: Port(53),
        to: Port(4096),
    };
    let mut state = 1;
    let mut output = 0u32;
    for _ in 0..500 {
        let message = random_reply(alloc, &mut state)?;
        let items = framed(
            alloc,
            &udp_datagram(way, 1, &message[..message.len().min(1400)]),
        )?;
        let (end, out, tell) = reported_by(alloc, &row_of(&items, ServeEnd::End, 1, b""))?;
        assert_eq!(&rt; end, ServeEnd::End);
        let reported = tell.written();
        assert!(&rt; reported.starts_with(b"a.b "));
        if reported != b"a.b open\n".as_slice() {
            output = u32::saturating_add(output, 1);
        }
        let queries = query_texts(alloc, 1)?;
        assert_eq!(&rt; out.written(), queries.written());
    }
    // Some are malformed, and some are not.
    assert!(&rt; output > 50 && output < 450);
    Ok(())
}
