//! The laws of the worlds of a replay; what the definitions of a report and of a summary give for worlds worked by hand; and
//! how a replay ends if nothing disturbs it. Each law is the clause of a function without parameters.

ghost use Rattle.link_replay.specs.Prelude.{AbortAndCloseApart, HitsAreCounted, HonestWebPeer, HonestReplay, LoadIsReported, LossyWebPeer};
ghost use Rattle.link_replay.specs.Prelude.{OnlyFull, ReplayIsReported, DamageLoses, AreWorkedReports, AreWorkedSummaries};

/// The definition gives the reports that were worked by hand.
#[tactic(auto, using(crate::proofs::WorkedReports::worked))]
pub fn worked_reports()
    ensures { AreWorkedReports }
{}

/// The definition gives the summaries that were worked by hand.
#[tactic(auto, using(crate::proofs::WorkedSummaries::worked))]
pub fn worked_summaries()
    ensures { AreWorkedSummaries }
{}

/// The delivery of a damaged datagram is a loss: no client, no connection and no list changes.
pub fn damage_loses()
    ensures { DamageLoses }
{}

/// If no fault count rises and no file is missing, a replay ends as is due for the shelf's files, or memory ran out.
pub fn replay_is_reported()
    ensures { ReplayIsReported }
{}

/// If no fault count rises and the site is not missing, a load ends as is due for the shelf's files, or memory ran out.
pub fn load_is_reported()
    ensures { LoadIsReported }
{}

/// Over a link that loses nothing, a schedule's client receives its whole page. Two rounds for each part of its request, two
/// for each text of its page, and six more suffice.
pub fn honest_replay()
    ensures { HonestReplay }
{}

/// A line of a seed's schedule is refused only if more datagrams would be sent than there are numbers for.
pub fn only_full()
    ensures { OnlyFull }
{}

/// At a node of the web server, the hits of a file count the events at which a connection's request became decided as its name.
pub fn hits_are_counted()
    ensures { HitsAreCounted }
{}

/// At a node of the web server, a connection is closed as soon as its whole page is acknowledged. Giving up and closing
/// therefore never meet.
pub fn abort_and_close_apart()
    ensures { AbortAndCloseApart }
{}

/// Whatever other peers do, a peer that requests a page, acknowledges each segment and loses nothing receives its whole page.
pub fn honest_web_peer()
    ensures { HonestWebPeer }
{}

/// The same over a link that loses, repeats and reorders datagrams, if what is outstanding is acknowledged before the last retransmission:
/// from its whole request on the page has arrived or is on its way.
pub fn lossy_web_peer()
    ensures { LossyWebPeer }
{}
