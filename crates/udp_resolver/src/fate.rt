use dns_message::Answer;

/// What became of a name that was queried.
#[derive(Clone, Copy, Debug, PartialEq, Eq)]
pub enum Fate {
    /// Nothing yet.
    Open,
    /// A matching reply had this answer.
    Answered(Answer),
    /// The server sent no answer until the question was given up.
    Timeout,
}
