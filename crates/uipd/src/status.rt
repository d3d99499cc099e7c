//! How a run ends, and the status of each end of its work.

ghost use Rattle.std.specs.Prelude.{◌≡◌};
ghost use Rattle.uipd.specs.Statuses.{exit_code_of, status_of_fault, status_of_replay, status_of_serving, status_of_site, status_of_slip};

use file_tree::LoadFault;
use link_replay::{ReplayEnd, Why};
use site_commands::{SiteEnd, SiteError};
use trace::{CaptureWhy, SlipEnd};
use uip_edge::ServeEnd;

/// How a run ends.
/// [add: status] A variant, its number in `exit_code`, and the `From` of the end that causes it.
#[derive(Clone, Copy, Debug, PartialEq, Eq)]
pub enum Status {
    /// All that was asked for was done and written.
    Done,
    /// The words have no form that the program knows.
    BadWords,
    /// A call of the shelf failed, or it does not hold a file that the words name.
    ShelfFault,
    /// A call of the link failed.
    LinkFault,
    /// A call of the sink failed.
    WriteFault,
    /// The permitted number of items was consumed.
    Budget,
    /// The image, or the list from which one is to be made, has this first fault.
    BadSite(SiteError),
    /// This line of the schedule is the first bad one, for this reason.
    BadSchedule { line: u32, why: Why },
    /// Memory ran out.
    NoMemory,
    /// The capture file has a fault in the record with this number, counted from 1; its header has number 0.
    BadCapture { number: u64, why: CaptureWhy },
}

impl Status {
    /// Returns the exit status of the process.
    pub fn exit_code(self) -> u8
        ensures { result ≡ exit_code_of self }
    {
        match self {
            Status::Done => 0,
            Status::BadWords => 1,
            Status::ShelfFault => 2,
            Status::LinkFault => 3,
            Status::WriteFault => 4,
            Status::Budget => 5,
            Status::BadSite(_) => 6,
            Status::BadSchedule { .. } => 7,
            Status::NoMemory => 8,
            Status::BadCapture { .. } => 9,
        }
    }
}

/// The end of serving a line.
impl From<ServeEnd> for Status {
    ghost from_gives = { λ end status. status ≡ status_of_serving end };

    fn from(end: ServeEnd) -> Status {
        match end {
            ServeEnd::End => Status::Done,
            ServeEnd::LinkFault => Status::LinkFault,
            ServeEnd::WriteFault => Status::WriteFault,
            ServeEnd::Budget => Status::Budget,
        }
    }
}

/// The end of reading a capture file.
impl From<SlipEnd> for Status {
    ghost from_gives = { λ end status. status ≡ status_of_slip end };

    fn from(end: SlipEnd) -> Status {
        match end {
            SlipEnd::End => Status::Done,
            SlipEnd::LinkFault => Status::LinkFault,
            SlipEnd::WriteFault => Status::WriteFault,
            SlipEnd::Budget => Status::Budget,
            SlipEnd::Bad { number, why } => Status::BadCapture { number, why },
        }
    }
}

/// Why a site could not be opened.
impl From<LoadFault> for Status {
    ghost from_gives = { λ fault status. status ≡ status_of_fault fault };

    fn from(fault: LoadFault) -> Status {
        match fault {
            LoadFault::Shelf => Status::ShelfFault,
            LoadFault::Bad(error) => Status::BadSite(error),
            LoadFault::NoMemory => Status::NoMemory,
        }
    }
}

/// The end of a command for an image.
impl From<SiteEnd> for Status {
    ghost from_gives = { λ end status. status ≡ status_of_site end };

    fn from(end: SiteEnd) -> Status {
        match end {
            SiteEnd::Done => Status::Done,
            SiteEnd::ShelfFault => Status::ShelfFault,
            SiteEnd::WriteFault => Status::WriteFault,
            SiteEnd::Bad(error) => Status::BadSite(error),
            SiteEnd::NoMemory => Status::NoMemory,
        }
    }
}

/// The end of a replay.
impl From<ReplayEnd> for Status {
    ghost from_gives = { λ end status. status ≡ status_of_replay end };

    fn from(end: ReplayEnd) -> Status {
        match end {
            ReplayEnd::Done => Status::Done,
            ReplayEnd::ShelfFault => Status::ShelfFault,
            ReplayEnd::WriteFault => Status::WriteFault,
            ReplayEnd::BadSite(error) => Status::BadSite(error),
            ReplayEnd::BadSchedule { line, why } => Status::BadSchedule { line, why },
            ReplayEnd::NoMemory => Status::NoMemory,
        }
    }
}
