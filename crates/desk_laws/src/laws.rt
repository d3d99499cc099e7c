//! The laws of the link world for the desk. Each is the clause of a function without parameters.

ghost use Rattle.desk_laws.specs.Prelude.{DeskMarksRepeats, DeskOneSegment, DeskRepeatsSameBytes};
ghost use Rattle.desk_laws.specs.Prelude.{DeskSendsAgain, DeskServes, SessionsAreShort, AreWorkedWorlds};

/// A clean client has received a prefix of the text that is due at its port, a page or a session, and all of it if it saw a
/// normal close.
pub fn desk_serves()
    ensures { DeskServes }
{}

/// A session sends at most 1,032 bytes for each byte received.
pub fn sessions_are_short()
    ensures { SessionsAreShort }
{}

/// A retransmission, of a page or of a session, has the number, flags and text of the first sending.
pub fn desk_repeats_same_bytes()
    ensures { DeskRepeatsSameBytes }
{}

/// Exactly the retransmissions are marked.
pub fn desk_marks_repeats()
    ensures { DeskMarksRepeats }
{}

/// While its connection lives, a clean client expects a number inside what is outstanding there, and has acknowledged no more.
pub fn desk_one_segment()
    ensures { DeskOneSegment }
{}

/// An expired timer below its limit sends what is outstanding in that tick, at port 80 and at port 23.
pub fn desk_sends_again()
    ensures { DeskSendsAgain }
{}

/// Schedules of the desk that were worked by hand, with what their clients have at the end.
pub fn worked_worlds()
    ensures { AreWorkedWorlds }
{}
