//! What holds for the pages of every site.

ghost use Rattle.web_pages.specs.Prelude.{DecisionStays, KeepsPageLaws, KeepsPageLawsBy, IsAtMostGreatest};
ghost use Rattle.web_pages.specs.Prelude.{IsAtMostGreatestBy, IsMadeOfBytes, IsMadeOfBytesBy, UpgradeKeepsPages};
ghost use Rattle.web_pages.specs.Prelude.{ReportedInPieces, LongNames, AreWorkedRequests, AreWorkedPages, ConstantValues};
ghost use Rattle.generators.specs.Prelude.{script_functions};

use generators::CallRecord;

/// The definition reads the requests as they were worked by hand.
#[tactic(auto, using(crate::proofs::WorkedRequests::worked))]
pub fn worked_requests()
    ensures { AreWorkedRequests }
{}

/// The definition gives the pages that were worked by hand.
#[tactic(auto, using(crate::proofs::WorkedPages::worked))]
pub fn worked_pages()
    ensures { AreWorkedPages }
{}

/// The web server of a site satisfies the laws of pages, from which follows what a client receives. More request bytes and more
/// snapshots only append to a page, a page is shorter than 2^30 bytes, and each call changes the connection as these laws need.
#[tactic(auto, using(crate::proofs::PageLaws::keeps_page_laws))]
pub fn page_laws()
    ensures { KeepsPageLaws }
{}

/// A page of a file is at most as long as the file's greatest length.
#[tactic(auto, using(crate::proofs::Limits::at_most_greatest))]
pub fn pages_within_greatest()
    ensures { IsAtMostGreatest }
{}

/// The same for any functions, if no script of the site has a fault by them: the laws of pages, that a page is at most as long
/// as its greatest length, and that it is bytes.
pub fn pages_of_any_calls<R: CallRecord>()
    ensures laws { KeepsPageLawsBy (script_functions R.Function.calling R.output) }
    ensures greatest { IsAtMostGreatestBy (script_functions R.Function.calling R.output) }
    ensures bytes { IsMadeOfBytesBy (script_functions R.Function.calling R.output) }
{}

/// What a request names stays the same, whatever bytes follow.
#[tactic(auto, using(crate::specs::Lemmas::Deciding::stays_wanted))]
pub fn decisions_stay()
    ensures { DecisionStays }
{}

/// Two words determine what a request names, in whatever pieces they were received. If the name in a target is cut, it is
/// longer than any file's.
#[tactic(auto, using(crate::proofs::WordLaws::reported_in_pieces, crate::proofs::WordLaws::long_names))]
pub fn reported_by_words()
    ensures reported { ReportedInPieces }
    ensures long { LongNames }
{}

/// The pages of a site of bytes are bytes.
pub fn pages_are_bytes()
    ensures { IsMadeOfBytes }
{}

/// If no word of an upgrade names a file, every page stays the same.
pub fn upgrade_keeps_pages()
    ensures { UpgradeKeepsPages }
{}

/// The constants have the values that the definitions name.
pub fn constant_values()
    ensures { ConstantValues }
{}
