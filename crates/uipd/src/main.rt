//! The program `uipd`: it serves a line, works on images of sites and plays schedules. It reads its words, and reaches its
//! files, its line and its output only through the traits of `uip_edge`, so the contracts of `run_told` cover all that it does.
//! This file makes the real adapters and turns the result of `run_told` into the process's exit status.
#![tactic(auto)]

#[cfg(test)]
mod adapter_tests;
mod adapters;
#[cfg(test)]
mod desk_tests;
#[cfg(test)]
mod ether_tests;
#[cfg(test)]
mod fault_tests;
mod file_shelf;
#[cfg(test)]
mod harness;
mod help;
#[cfg(test)]
mod load_tests;
mod parts;
#[cfg(test)]
mod replay_tests;
mod replay_work;
#[cfg(test)]
mod resolve_tests;
mod resolve_words;
mod run;
mod run_told;
mod serve;
#[cfg(test)]
mod site_tests;
mod site_work;
mod status;
#[cfg(test)]
mod tests;
mod words;

use adapters::run_over;
use file_shelf::FileShelf;
use status::Status;
use std::process::ExitCode;
use std::{env, io};

/// Reads the words after the program's name and does what they ask for, over the files of the system, standard input, standard
/// output, and standard error for what is reported beside the output.
fn run_words(rt: HostRuntime) -> io::Result<Status> {
    let mut words = Vec::new(rt.alloc());
    for word in env::args(&rt)?.skip(1) {
        words.push(word)?;
    }
    let mut shelf = FileShelf::new(&rt);
    Ok(run_over(
        rt.alloc(),
        &words,
        &mut shelf,
        rt.stdin(),
        rt.stdout(),
        rt.stderr(),
    ))
}

/// Returns the status if the words could not be read: words that are not text are none of the program's.
fn unread(error: &io::Error) -> Status {
    match error.kind() {
        io::ErrorKind::OutOfMemory => Status::NoMemory,
        _ => Status::BadWords,
    }
}

fn main(rt: HostRuntime) -> ExitCode {
    let status = match run_words(rt) {
        Ok(status) => status,
        Err(error) => unread(&error),
    };
    ExitCode::from(status.exit_code())
}
