//! A shelf in memory, of which planned calls fail.

ghost use Rattle.std.specs.Prelude.{◌≡◌, ◌<◌, ◌≤◌, ◌-◌, ◌↔◌, length, take, drop, min, Contains, IsErr, IfOk, IfSome, Some, None};
ghost use Rattle.std.specs.Option.{option_copied};
ghost use Rattle.uip_edge.specs.Causes.{counted_on};
ghost use Rattle.uip_edge.specs.Shelving.{reported_files, Reads, HasShelfCause};

use crate::failed::Failed;
use crate::held::Held;
use crate::shelf::Shelf;
use std::marker::Model;

/// Returns the bytes of the first file of that name.
fn content_of<'a>(files: &'a [Held], name: &[u8]) -> Option<&'a [u8]>
    ensures { option_copied result ≡ reported_files files.now name.now }
{
    files
        .iter()
        .find(|held| held.name.as_slice() == name)
        .map(|held| held.content.as_slice())
}

/// Copies the bytes from the offset on, as far as they fit, and returns how many.
fn copy_from(content: &[u8], at: u64, buf: &mut [u8]) -> usize
    ensures count { result ≡ min (length buf.new) (length content.now - at) }
    ensures bytes { take result buf.new ≡ take result (drop at content.now) }
{
    if at >= content.len() as u64 {
        return 0;
    }
    let rest = &content[at as usize..];
    let count = rest.len().min(buf.len());
    buf[..count].copy_from_slice(&rest[..count]);
    count
}

/// A shelf in memory. Of two files of one name the first counts. The calls whose numbers, counted from 1, are in `fails` fail and raise the
/// count. A call with a name that no file has fails and leaves the count.
#[derive(Drop)]
pub struct MemShelf {
    files: Vec<Held>,
    fails: Vec<u64>,
    calls: u64,
    faults: u64,
}

impl Model for MemShelf {
    ghost use Rattle.uip_edge.specs.Shelving.{ShelfContent};

    ghost Value = { ShelfContent };

    ghost view = { λ shelf. record { files = shelf.files.items; fails = shelf.fails.items; calls = shelf.calls; faults = shelf.faults } };
}

impl MemShelf {
    pub fn new(files: Vec<Held>, fails: Vec<u64>) -> MemShelf
        ensures { result ≡ record { files = files.items; fails = fails.items; calls = 0; faults = 0 } }
    {
        MemShelf {
            files,
            fails,
            calls: 0,
            faults: 0,
        }
    }
}

impl Shelf for MemShelf {
    ghost held = { λ shelf. Some (reported_files shelf.files) };

    ghost faults = { λ shelf. shelf.faults };

    fn read(&mut self, name: &[u8], at: u64, buf: &mut [u8]) -> Result<usize, Failed>
        requires { 0 < length buf.old }
        ensures within { IfOk result (λ n. n ≤ length buf.new) }
        ensures bytes { Reads (Some (reported_files self.old.files)) name.now at result buf.new }
        ensures kept { (self.new.files ≡ self.old.files) × (self.new.fails ≡ self.old.fails) }
        ensures cause { HasShelfCause self.old.faults self.new.faults (Some (reported_files self.old.files)) name.now result }

        // A call fails exactly if its number is planned, which raises the count, or if the file is missing.
        ensures numbered { self.new.calls ≡ counted_on self.old.calls }
        ensures planned { Contains self.old.fails self.new.calls → IsErr result × (self.new.faults ≡ counted_on self.old.faults) }
        ensures unplanned { ¬ (Contains self.old.fails self.new.calls)
            → (IsErr result ↔ (reported_files self.old.files name.now ≡ None)) × (self.new.faults ≡ self.old.faults) }
        ensures given { IfOk result
            (λ n. IfSome (reported_files self.old.files name.now) (λ content. n ≡ min (length buf.old) (length content - at))) }
    {
        self.calls = self.calls.saturating_add(1);
        if self.fails.contains(&self.calls) {
            self.faults = self.faults.saturating_add(1);
            return Err(Failed);
        }
        match content_of(&self.files, name) {
            Some(content) => Ok(copy_from(content, at, buf)),
            None => Err(Failed),
        }
    }
}
