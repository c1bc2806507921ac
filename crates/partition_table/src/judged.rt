//! The part of a ruling that a side of an exchange keeps.
use builtin_resolvers::Verdict3;

/// A word, and what the resolver of a clash answers at it.
#[derive(Clone, Copy, Debug, PartialEq, Eq)]
pub struct Judged {
    /// The word.
    pub word: u64,
    /// The answer.
    pub answer: Verdict3,
}
