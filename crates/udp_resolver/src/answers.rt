//! The answers known so far.

ghost use Rattle.std.specs.Prelude.{◌≡◌, length};
ghost use Rattle.std.specs.List.{list_any};
ghost use Rattle.std.specs.Option.{is_none, option_or};
ghost use Rattle.udp_resolver.specs.Prelude.{next_asking, questions, received_now};
ghost use Rattle.dns_message.specs.Replies.{answer_to};

use dns_message::{Answer, Asking, Name};

/// Returns the same with the next id.
pub(crate) fn next_asking(asking: Asking) -> Asking
    ensures { result ≡ next_asking asking }
{
    Asking {
        own: asking.own,
        server: asking.server,
        id: asking.id.wrapping_add(1),
    }
}

/// Returns the known answer, or else that of a datagram.
fn known_or(known: Option<Answer>, asking: Asking, name: &Name, datagram: &[u8]) -> Option<Answer>
    ensures { result ≡ option_or known (answer_to asking name.now datagram.now) }
{
    if known.is_some() {
        return known;
    }
    asking.answer(name, datagram)
}

/// Takes the answers of a received datagram to questions that have none yet.
pub(crate) fn receive(
    answers: &mut [Option<Answer>],
    asking: Asking,
    names: &[Name],
    datagram: &[u8],
)
    requires { length answers.old ≡ length names.now }
    ensures { answers.new ≡ received_now datagram.now (questions asking names.now) answers.old }
{
    let mut asking = asking;
    for at in 0..names.len() {
        answers[at] = known_or(answers[at], asking, &names[at], datagram);
        asking = next_asking(asking);
    }
}

/// Returns whether a question has no answer yet.
pub(crate) fn any_open(answers: &[Option<Answer>]) -> bool
    ensures { result ≡ list_any is_none answers.now }
{
    answers.iter().any(|answer| answer.is_none())
}
