// Capture files of both byte orders, cut at each place of two records, and files that are not read.
ghost use Rattle.std.specs.Prelude.{◌≤◌, length};

use std::alloc::{AllocError, Global};
use std::process::Abort;
use std::test::Fail;
use trace::{CaptureWhy, SlipEnd, slip};
use uip_edge::{Item, MemSink, SureLink};

const BIG: &[u8] = &[
    0xA1, 0xB2, 0xC3, 0xD4, 0, 2, 0, 4, 1, 2, 3, 4, 5, 6, 7, 8, 0, 4, 0, 0, 0, 0, 0, 101, 0, 0, 0,
    1, 0, 7, 0xA1, 0x20, 0, 0, 0, 3, 0, 0, 0, 3, 1, 0xC0, 2, 0, 0, 0, 2, 0, 0, 0, 0, 0, 0, 0, 2, 0,
    0, 9, 9, 0xDB, 5,
];

const LITTLE: &[u8] = &[
    0xD4, 0xC3, 0xB2, 0xA1, 2, 0, 4, 0, 1, 2, 3, 4, 5, 6, 7, 8, 0, 0, 4, 0, 101, 0, 0, 0, 1, 0, 0,
    0, 0x20, 0xA1, 7, 0, 3, 0, 0, 0, 3, 0, 0, 0, 1, 0xC0, 2, 2, 0, 0, 0, 0, 0, 0, 0, 2, 0, 0, 0, 9,
    9, 0, 0, 0xDB, 5,
];

/// The first record's datagram, which ends at offset 43, and then the second one's.
const LINE: &[u8] = &[0xC0, 1, 0xDB, 0xDC, 2, 0xC0, 0xC0, 0xDB, 0xDD, 5, 0xC0];

fn items_of(alloc: Global, bytes: &[u8]) -> Result<Vec<Item>, AllocError> {
    let mut items = Vec::new(alloc);
    for byte in bytes {
        items.push(Item::Byte(*byte))?;
    }
    Ok(items)
}

/// Reads a file with at most `most` bytes per read of the link, up to a number of items.
fn check(
    rt: &impl Abort,
    alloc: Global,
    file: &[u8],
    most: usize,
    budget: u64,
    end: SlipEnd,
    line: &[u8],
) -> Result<(), Fail> {
    let mut link = SureLink::new(items_of(alloc, file)?, most.max(1));
    let Ok(mut sink) = MemSink::new(alloc, 64, Vec::new(alloc)) else {
        return Err("no memory".into());
    };
    assert_eq!(rt; slip(&mut link, &mut sink, budget), end);
    assert_eq!(rt; sink.written(), line);
    Ok(())
}

const fn bad(number: u64, why: CaptureWhy) -> SlipEnd {
    SlipEnd::Bad { number, why }
}

/// Returns the end of a file of this length, and what was written of the line.
fn end_at(len: usize) -> (SlipEnd, &'static [u8]) {
    match len {
        0..=23 => (bad(0, CaptureWhy::Cut), b""),
        24 => (SlipEnd::End, b""),
        25..=42 => (bad(1, CaptureWhy::Cut), b""),
        43 => (SlipEnd::End, &LINE[..6]),
        44..=60 => (bad(2, CaptureWhy::Cut), &LINE[..6]),
        _ => (SlipEnd::End, LINE),
    }
}

/// Reads a prefix of a file, and the file up to as many items.
fn check_cut(
    rt: &impl Abort,
    alloc: Global,
    file: &[u8],
    len: usize,
    most: usize,
) -> Result<(), Fail>
    requires { len ≤ length file.now }
{
    let (end, line) = end_at(len);
    check(rt, alloc, &file[..len], most, u64::MAX, end, line)?;
    check(rt, alloc, file, most, len as u64, SlipEnd::Budget, line)
}

#[test]
fn each_cut_is_reported(rt: HostRuntime) -> Result<(), Fail> {
    for file in [BIG, LITTLE] {
        for len in 0..=file.len() {
            for most in [1, 5, 64] {
                check_cut(&rt, rt.alloc(), file, len, most)?;
            }
        }
    }
    Ok(())
}

/// Returns the file in the first byte order, with these bytes at these offsets.
fn changed(alloc: Global, changes: &[(usize, u8)]) -> Result<Vec<u8>, AllocError> {
    let mut file = BIG.to_vec(alloc)?;
    for (place, byte) in changes {
        if let Some(old) = file.get_mut(*place) {
            *old = *byte;
        }
    }
    Ok(file)
}

/// Reads a changed file whole, and up to the item that has the fault.
fn check_fault(
    rt: &impl Abort,
    alloc: Global,
    changes: &[(usize, u8)],
    len: u64,
    end: SlipEnd,
    line: &[u8],
) -> Result<(), Fail> {
    let file = changed(alloc, changes)?;
    for most in [1, 7, 64] {
        check(rt, alloc, &file, most, u64::MAX, end, line)?;
        check(rt, alloc, &file, most, len, end, line)?;
        check(
            rt,
            alloc,
            &file,
            most,
            len.saturating_sub(1),
            SlipEnd::Budget,
            line,
        )?;
    }
    Ok(())
}

#[test]
fn other_files_are_refused(rt: HostRuntime) -> Result<(), Fail> {
    let alloc = rt.alloc();
    // Nanoseconds, version 2.5, link types other than 101, and a signature in no order.
    for change in [
        (2, 0x3C),
        (7, 5),
        (23, 1),
        (22, 1),
        (21, 1),
        (20, 1),
        (0, 0xD4),
    ] {
        check_fault(&rt, alloc, &[change], 24, bad(0, CaptureWhy::Head), b"")?;
    }
    // Second records of 1501, 65538 and 16777218 bytes.
    let long = bad(2, CaptureWhy::Length);
    check_fault(&rt, alloc, &[(53, 5), (54, 0xDD)], 59, long, &LINE[..6])?;
    check_fault(&rt, alloc, &[(52, 1)], 59, long, &LINE[..6])?;
    check_fault(&rt, alloc, &[(51, 1)], 59, long, &LINE[..6])?;
    // One of 1500 bytes is cut, and an empty one writes nothing.
    let longest = changed(alloc, &[(53, 5), (54, 0xDC)])?;
    let cut = bad(2, CaptureWhy::Cut);
    check(&rt, alloc, &longest, 7, u64::MAX, cut, &LINE[..6])?;
    let mut empty = changed(alloc, &[(54, 0)])?;
    empty.truncate(59);
    check(&rt, alloc, &empty, 7, u64::MAX, SlipEnd::End, &LINE[..6])
}
