// One run of the program: its files, its line and its sinks in memory, and its expected result.
use crate::run_told::run_told;
use crate::status::Status;
use site_commands::{SiteError, SiteWhy};
use std::alloc::{AllocError, Global};
use std::process::Abort;
use std::test::Fail;
use uip_edge::{Held, Item, MemLink, MemShelf, MemSink};

/// The image of a site of one file.
pub const IMAGE: &[u8] = b"UIPSITE1\0\x01\x0b/index.html\0\0\0\x06hello\n";

/// Returns the bytes of texts in hex digits, one after the other.
pub fn bytes_of(alloc: Global, texts: &[&str]) -> Result<Vec<u8>, Fail> {
    let mut digits = String::new(alloc);
    for text in texts {
        for word in text.split_whitespace() {
            digits.push_str(word)?;
        }
    }
    Ok(
        hex::decode(alloc, digits.as_bytes())
            .ok()
            .ok_or("no hex digits")?,
    )
}

/// Returns the bytes of two such lists, mostly the input and the output.
pub fn both_of(alloc: Global, one: &[&str], other: &[&str]) -> Result<(Vec<u8>, Vec<u8>), Fail> {
    Ok((bytes_of(alloc, one)?, bytes_of(alloc, other)?))
}

/// Returns a prefix of a text, of this length.
pub fn prefix(text: &[u8], len: usize) -> &[u8] {
    &text[..len.min(text.len())]
}

/// Returns the status for a bad image.
pub fn bad(why: SiteWhy, entry: u32) -> Status {
    Status::BadSite(SiteError { why, entry })
}

/// A run over the files `h` and `i` and a line: the calls of the shelf, of the link and of the sink that fail, the sink's room
/// in bytes, and what it has to write, report and return.
#[derive(Clone, Copy, Drop)]
pub struct Trial<'w, 'a> {
    pub words: &'w [&'w str],
    pub h: &'a [u8],
    pub i: &'a [u8],
    pub input: &'a [u8],
    /// How many silences follow.
    pub silences: usize,
    pub shelf_fails: &'a [u64],
    pub link_fails: &'a [u64],
    pub sink_fails: &'a [u64],
    pub room: usize,
    pub output: &'a [u8],
    pub expected: &'a [u8],
    pub status: Status,
}

/// The result of a run.
#[derive(Drop)]
pub struct Ran {
    pub status: Status,
    pub out: MemSink,
    pub tell: MemSink,
}

fn held(alloc: Global, name: &[u8], content: &[u8]) -> Result<Held, AllocError> {
    Ok(Held {
        name: name.to_vec(alloc)?,
        content: content.to_vec(alloc)?,
    })
}

/// Returns the words of a command line.
pub fn words_of(alloc: Global, words: &[&str]) -> Result<Vec<String>, AllocError> {
    let mut list = Vec::new(alloc);
    for word in words {
        list.push(String::from_str(alloc, word)?)?;
    }
    Ok(list)
}

fn sink(alloc: Global, room: usize, fails: &[u64]) -> Result<MemSink, Fail> {
    match MemSink::new(alloc, room, fails.to_vec(alloc)?) {
        Ok(sink) => Ok(sink),
        Err(_) => Err("no memory".into()),
    }
}

impl<'w, 'a> Trial<'w, 'a> {
    /// Returns a trial of words that are done: its input over the line, and its output.
    pub fn new(words: &'w [&'w str], input: &'a [u8], output: &'a [u8]) -> Trial<'w, 'a> {
        Trial {
            words,
            h: IMAGE,
            i: b"hello\n",
            input,
            silences: 0,
            shelf_fails: &[],
            link_fails: &[],
            sink_fails: &[],
            room: 4096,
            output,
            expected: b"",
            status: Status::Done,
        }
    }

    /// Returns a trial of words over the file `h` and no line.
    pub fn over(
        words: &'w [&'w str],
        h: &'a [u8],
        output: &'a [u8],
        status: Status,
    ) -> Trial<'w, 'a> {
        Trial {
            h,
            ..Trial::new(words, b"", output).ending(status)
        }
    }

    /// Returns the same trial with another status.
    pub fn ending(self, status: Status) -> Trial<'w, 'a> {
        Trial { status, ..self }
    }

    fn shelf(&self, alloc: Global) -> Result<MemShelf, AllocError> {
        let mut files = Vec::new(alloc);
        files.push(held(alloc, b"h", self.h)?)?;
        files.push(held(alloc, b"i", self.i)?)?;
        Ok(MemShelf::new(files, self.shelf_fails.to_vec(alloc)?))
    }

    fn link(&self, alloc: Global, most: usize) -> Result<MemLink, AllocError> {
        let mut items = Vec::new(alloc);
        for byte in self.input {
            items.push(Item::Byte(*byte))?;
        }
        for _ in 0..self.silences {
            items.push(Item::Quiet)?;
        }
        Ok(MemLink::new(items, most.max(1), self.link_fails.to_vec(alloc)?))
    }

    /// Runs with at most `most` bytes per read of the link.
    pub fn run(&self, alloc: Global, most: usize) -> Result<Ran, Fail> {
        let words = words_of(alloc, self.words)?;
        let mut shelf = self.shelf(alloc)?;
        let mut link = self.link(alloc, most)?;
        let mut out = sink(alloc, self.room, self.sink_fails)?;
        let mut tell = sink(alloc, 4096, &[])?;
        let status = run_told(alloc, &words, &mut shelf, &mut link, &mut out, &mut tell);
        Ok(Ran { status, out, tell })
    }

    /// Runs with at most `most` bytes per read of the link, and checks the result.
    pub fn check(&self, rt: &impl Abort, alloc: Global, most: usize) -> Result<(), Fail> {
        let ran = self.run(alloc, most)?;
        assert_eq!(rt; ran.status, self.status);
        assert_eq!(rt; ran.out.written(), self.output);
        assert_eq!(rt; ran.tell.written(), self.expected);
        Ok(())
    }

    /// Runs with its items cut in every way.
    pub fn check_cuts(&self, rt: &impl Abort, alloc: Global) -> Result<(), Fail> {
        for most in 1..=self.input.len().max(1) {
            self.check(rt, alloc, most)?;
        }
        Ok(())
    }

    /// Returns whether the output has this line.
    pub fn shows(&self, alloc: Global, line: &str) -> Result<bool, Fail> {
        let ran = self.run(alloc, 1)?;
        match str::from_utf8(ran.out.written()) {
            Ok(text) => Ok(ran.status == Status::Done && text.contains(line)),
            Err(_) => Ok(false),
        }
    }
}

/// Does each run with its items cut in every way.
pub fn check_all(rt: &impl Abort, alloc: Global, trials: &[Trial<'_, '_>]) -> Result<(), Fail> {
    for trial in trials {
        trial.check_cuts(rt, alloc)?;
    }
    Ok(())
}

/// The input of a line, and what is sent, each in pieces in hex digits.
pub type Session<'a> = (&'a [&'a str], &'a [&'a str]);

/// Runs these words for each session, with its items cut in every way.
pub fn check_sessions<'w>(
    rt: &impl Abort,
    alloc: Global,
    words: &'w [&'w str],
    sessions: &[Session<'_>],
) -> Result<(), Fail> {
    for (heard, sent) in sessions {
        let (heard, sent) = both_of(alloc, heard, sent)?;
        Trial::new(words, &heard, &sent).check_cuts(rt, alloc)?;
    }
    Ok(())
}

/// Checks that words that no command has do nothing, whatever the line brings.
pub fn check_bad_words(
    rt: &impl Abort,
    alloc: Global,
    heard: &str,
    rows: &[&[&str]],
) -> Result<(), Fail> {
    let heard = bytes_of(alloc, &[heard])?;
    for words in rows {
        Trial::new(words, &heard, b"")
            .ending(Status::BadWords)
            .check(rt, alloc, 4096)?;
    }
    Ok(())
}
