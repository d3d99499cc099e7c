//! The laws of every run of the resolver.

ghost use Rattle.udp_resolver.specs.Prelude.{ConstantValues, EventsAreOfLine, AddressesAreFromReplies};
ghost use Rattle.udp_resolver.specs.Prelude.{BudgetIsReported, DryIsReported, SettledIsReported};

/// An address is reported for a name only from a received datagram: the reply to the question for this name, with an answer record of this
/// address.
pub fn addresses_are_from_replies()
    ensures { AddressesAreFromReplies }
{}

/// The end is reported if nothing failed and all questions are settled, or the link had fewer items than are allowed.
pub fn end_is_reported()
    ensures settled { SettledIsReported }
    ensures dry { DryIsReported }
{}

/// The budget is reported if nothing failed, as many items were taken as were allowed, and a question is open.
pub fn budget_is_reported()
    ensures { BudgetIsReported }
{}

/// The datagrams received are those among the frames of the line's bytes, in order, and the silences are the line's.
#[tactic(auto, using(crate::proofs::FromLineLaws::events_are_of_line))]
pub fn events_are_of_the_line()
    ensures { EventsAreOfLine }
{}

/// The numbers that the definitions name by the code's constants.
pub fn constant_values()
    ensures { ConstantValues }
{}
