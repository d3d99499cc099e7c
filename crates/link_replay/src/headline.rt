//! The guarantee for the web server: what its clients receive of the pages of a site, whatever a schedule loses, repeats,
//! reorders or damages. Each law is the clause of a function without parameters.

ghost use Rattle.link_replay.specs.Prelude.{PagesAreReceived, HonestPages, LosingPages, AreWorkedReplays};

/// A client to and from which nothing stale was delivered has received a prefix of its page, and the whole page if it saw a
/// normal close.
pub fn pages_are_received()
    ensures { PagesAreReceived }
{}

/// Over a link that loses nothing, a client has its whole page after two rounds for each part of its request, two for each text
/// of its page, and six more.
pub fn honest_pages()
    ensures { HonestPages }
{}

/// Over a link that loses up to seven copies in a row of each segment of the node, and up to four of the SYN-ACK, a client that
/// sends a decided request in one segment has its whole page.
pub fn losing_pages()
    ensures { LosingPages }
{}

/// The definitions give whole schedules that were worked by hand: a page, two hits of one file, a request that is refused, one
/// that is not decided, counters whose text is lost and retransmitted, and a full table of ten connections.
pub fn worked_replays()
    ensures { AreWorkedReplays }
{}
