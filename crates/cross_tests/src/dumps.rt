// A line of a dump for each fate of a frame, at its first and its last length.
use crate::talking::bytes_of;
use std::alloc::{AllocError, Global};
use std::process::Abort;
use std::test::Fail;
use trace::dump;
use uip_edge::{Item, MemSink, ServeEnd, SureLink};

/// The bytes that a frame begins with, its length in bytes (all others are 0), and its line after the number. No byte of a
/// frame is escaped.
/// [add: fate] A frame with the fate, and its line.
const FRAMES: &[(&str, usize, &str)] = &[
    ("45", 1, " 1 ip short\n"),
    ("45", 19, " 19 ip short\n"),
    (
        "46000014 00010000 400165E6 0A000002 0A000001",
        20,
        " 20 ip version\n",
    ),
    (
        "460005DC 00010000 4001601E 0A000002 0A000001",
        1500,
        " 1500 ip version\n",
    ),
    (
        "45000015 00010000 400166E5 0A000002 0A000001",
        20,
        " 20 ip length\n",
    ),
    (
        "45000013 00010000 400166E7 0A000002 0A000001",
        1500,
        " 1500 ip length\n",
    ),
    (
        "45000014 00012000 400146E6 0A000002 0A000001",
        20,
        " 20 ip fragment\n",
    ),
    (
        "450005DC 00010001 4001611D 0A000002 0A000001",
        1500,
        " 1500 ip fragment\n",
    ),
    (
        "45000014 00010000 400166E7 0A000002 0A000001",
        20,
        " 20 ip checksum\n",
    ),
    (
        "450005DC 00010000 40066118 0A000002 0A000001",
        1500,
        " 1500 ip checksum\n",
    ),
    (
        "45000014 00010000 401166D6 0A000002 0A000001",
        20,
        " 20 ip protocol\n",
    ),
    (
        "450005DC 00010000 4002611D 0A000002 0A000001",
        1500,
        " 1500 ip protocol\n",
    ),
    (
        "45000014 00010000 400166E6 0A000002 0A000001",
        20,
        " 20 icmp short\n",
    ),
    (
        "4500001B 00010000 400166DF 0A000002 0A000001",
        27,
        " 27 icmp short\n",
    ),
    (
        "4500001C 00010000 400166DE 0A000002 0A000001 0800F7FE",
        28,
        " 28 icmp checksum\n",
    ),
    (
        "450005DC 00010000 4001611E 0A000002 0A000001 0800F7FE",
        1500,
        " 1500 icmp checksum\n",
    ),
    (
        "4500001C 00010000 400166DE 0A000002 0A000001 030DFCF2",
        28,
        " 28 icmp 10.0.0.2 10.0.0.1 3 13\n",
    ),
    (
        "450005DC 00010000 4001611E 0A000002 0A000001 FFFF",
        1500,
        " 1500 icmp 10.0.0.2 10.0.0.1 255 255\n",
    ),
    (
        "45000014 00010000 400666E1 0A000002 0A000001",
        20,
        " 20 tcp short\n",
    ),
    (
        "45000027 00010000 400666CE 0A000002 0A000001",
        39,
        " 39 tcp short\n",
    ),
    (
        "45000028 00010000 400666CD 0A000002 0A000001 04010050 00000000 00000000 40002000 8791",
        40,
        " 40 tcp offset\n",
    ),
    (
        "45000028 00010000 400666CD 0A000002 0A000001 04010050 00000000 00000000 60002000 6791",
        40,
        " 40 tcp offset\n",
    ),
    (
        "450005DC 00010000 40066119 0A000002 0A000001 04010050 00000000 00000000 00002000 C1DD",
        1500,
        " 1500 tcp offset\n",
    ),
    (
        "45000028 00010000 400666CD 0A000002 0A000001 04010050 00000000 00000000 50002000 7790",
        40,
        " 40 tcp checksum\n",
    ),
    (
        "450005DC 00010000 40066119 0A000002 0A000001 04010050 00000000 00000000 50002000 71DC",
        1500,
        " 1500 tcp checksum\n",
    ),
    (
        "45000028 00010000 400666CD 0A000002 0A000001 04010050 00000000 00000000 50202000 7771",
        40,
        " 40 tcp 10.0.0.2:1025 10.0.0.1:80 - 0 0 0\n",
    ),
    (
        "450005DC 00010000 40066119 0A000002 0A000001 0000FFFF FFFFFFFF 80000000 503F2000 F5EE",
        1500,
        " 1500 tcp 10.0.0.2:0 10.0.0.1:65535 SAPFR 4294967295 2147483648 1460\n",
    ),
    (
        "450005DC 00010000 40066119 0A000002 0A000001 04010050 00000001 00000002 F0102000 D1C9",
        1500,
        " 1500 tcp 10.0.0.2:1025 10.0.0.1:80 A 1 2 1420\n",
    ),
    ("01", 1501, " overlong\n"),
    ("01", 4096, " overlong\n"),
];

fn put_frame(items: &mut Vec<Item>, prefix: &[u8], len: usize) -> Result<(), AllocError> {
    for byte in prefix {
        items.push(Item::Byte(*byte))?;
    }
    for _ in prefix.len()..len {
        items.push(Item::Byte(0))?;
    }
    items.push(Item::Byte(0xC0))?;
    Ok(())
}

/// Returns the line of all frames, and its dump.
fn line_and_dump(alloc: Global) -> Result<(Vec<Item>, Vec<u8>), Fail> {
    let mut items = Vec::new(alloc);
    let mut lines = Vec::new(alloc);
    for (place, (prefix, len, words)) in FRAMES.iter().enumerate() {
        put_frame(&mut items, &bytes_of(alloc, prefix)?, *len)?;
        lines.extend_from_slice(format!(in alloc; "{}", place + 1)?.as_bytes())?;
        lines.extend_from_slice(words.as_bytes())?;
    }
    Ok((items, lines))
}

/// Dumps the line with at most `most` bytes per read of the link.
fn check(rt: &impl Abort, alloc: Global, most: usize) -> Result<(), Fail> {
    let (items, lines) = line_and_dump(alloc)?;
    let mut link = SureLink::new(items, most.max(1));
    let Ok(mut sink) = MemSink::new(alloc, 4096, Vec::new(alloc)) else {
        return Err("no memory".into());
    };
    assert_eq!(rt; dump(&mut link, &mut sink, u64::MAX), ServeEnd::End);
    assert_eq!(rt; sink.written(), lines.as_slice());
    Ok(())
}

#[test]
fn each_fate_has_its_line(rt: HostRuntime) -> Result<(), Fail> {
    for most in [1, 7, 1500, 100_000] {
        check(&rt, rt.alloc(), most)?;
    }
    Ok(())
}
