//! The files of the system as a shelf.

ghost use Rattle.std.specs.Prelude.{◌≡◌, ◌<◌, ◌≤◌, ◌+◌, ◌-◌, ◌^◌, min, length, None, IfOk, IfSome, IsSomeAnd};
ghost use Rattle.uip_edge.specs.Prelude.{HasShelfCause};
ghost use Rattle.uipd.specs.FileReading.{Passes, ReadsOn};

use arrayvec::ArrayVec;
use std::fs;
use std::io::Read;
use std::rt::Files;
use uip_edge::{Failed, Shelf};

/// The size of the block by which what is before an offset is read, in bytes.
const BLOCK: usize = 4096;

/// The greatest length of a name, in bytes: no path of the system is longer (PATH_MAX).
const LONGEST_NAME: usize = 4096;

/// A file that is being read, and its offset.
#[derive(Drop)]
struct OpenFile<F> {
    name: ArrayVec<u8, LONGEST_NAME>,
    file: F,
    at: u64,
}

/// The files of the system, by their paths. The last one stays open, and continues if the next call reads on. Else the file is
/// opened again and read up to the offset. A name that is not text is a fault, and so is a missing file. No call allocates
/// memory.
#[derive(Drop)]
pub struct FileShelf<'a, R: Files> {
    rt: &'a R,
    last: Option<OpenFile<R::File>>,
    faults: u64,
}

impl<'a, R: Files> FileShelf<'a, R> {
    /// Returns the shelf, with no file open.
    pub fn new(rt: &'a R) -> FileShelf<'a, R>
        ensures faults { result.faults ≡ 0 }
    {
        FileShelf {
            rt,
            last: None,
            faults: 0,
        }
    }
}

impl<'a, R: Files> Shelf for FileShelf<'a, R> {
    ghost held = { λ _. None };

    ghost faults = { λ shelf. shelf.faults };

    fn read(&mut self, name: &[u8], at: u64, buf: &mut [u8]) -> Result<usize, Failed>
        requires { 0 < length buf.old }
        ensures within { IfOk result (λ n. n ≤ length buf.new) }
        ensures cause { HasShelfCause self.old.faults self.new.faults None name.now result }

        // What it reads is what a file at the offset lost, if an open file's content is known.
        ensures bytes { IfOk result (λ n. ReadsOn R.File.remaining self.old.last self.new.last name.now at n buf.new) }
    {
        match read_on(self.rt, &mut self.last, name, at, buf) {
            Some(count) => Ok(count),
            None => {
                self.faults = self.faults.saturating_add(1);
                Err(Failed)
            }
        }
    }
}

/// Reads on in the last file, if the offset is its own; else opens the file again.
fn read_on<R: Files>(
    rt: &R,
    last: &mut Option<OpenFile<R::File>>,
    name: &[u8],
    at: u64,
    buf: &mut [u8],
) -> Option<usize>
    ensures within { IfSome result (λ count. count ≤ length buf.new) }
    ensures place { IfSome result
        (λ count. IsSomeAnd last.new (λ file. (file.name.items ≡ name.now) × (file.at ≡ min (at + count) (2 ^ 64 - 1)))) }
    ensures bytes { IfSome result (λ count. ReadsOn R.File.remaining last.old last.new name.now at count buf.new) }
{
    let mut open = match last.take() {
        Some(open) if open.at == at && open.name.as_slice() == name => open,
        _ => open_at(rt, name, at)?,
    };
    let count = open.file.read(buf).ok()?;
    open.at = at.saturating_add(count as u64);
    *last = Some(open);
    Some(count)
}

/// Opens a file and reads up to the offset.
fn open_at<R: Files>(rt: &R, name: &[u8], at: u64) -> Option<OpenFile<R::File>>
    ensures place { IfSome result (λ file. (file.name.items ≡ name.now) × (file.at ≡ at)) }
    ensures passed { IfSome result (λ file. (opened : R.File) × Passes (R.File.remaining opened) (R.File.remaining file.file) at) }
{
    let mut kept = ArrayVec::new();
    kept.try_extend_from_slice(name).ok()?;
    let path = str::from_utf8(name).ok()?;
    let mut file = fs::open(rt, path).ok()?;
    pass(&mut file, at)?;
    Some(OpenFile {
        name: kept,
        file,
        at,
    })
}

/// Reads this number of bytes and discards them, as far as there are any.
fn pass<F: Read>(file: &mut F, bytes: u64) -> Option<()>
    ensures { IfSome result (λ _. Passes (F.remaining file.old) (F.remaining file.new) bytes) }
{
    let mut block = [0; BLOCK];
    let mut left = bytes;
    while left > 0 {
        let room = left.min(BLOCK as u64) as usize;
        match file.read(&mut block[..room]).ok()? {
            0 => return Some(()),
            count => left -= count as u64,
        }
    }
    Some(())
}
