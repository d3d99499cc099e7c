//! What holds of every pair.

ghost use Rattle.app_pair.specs.TwoApplications.{PairIsTwoApplications};
ghost use Rattle.app_pair.specs.Worked.{AreWorkedPairs};

/// At its ports each application of a pair acts as it would alone. No call changes a number of the other.
#[tactic(auto, using(crate::proofs::PairActs::two_applications))]
pub fn pair_is_two_applications()
    ensures { PairIsTwoApplications }
{}

/// The definitions give the rows that were worked by hand.
pub fn worked_pairs()
    ensures { AreWorkedPairs }
{}
