//! The verdicts of programs and of built-in resolvers.
ghost use Rattle.std.specs.Prelude.{◌≡◌, Some};
ghost use Rattle.builtin_resolvers.specs.Verdicts.{builtin_verdict, verdict_of_answer, verdict_text};

use clash_record::Builtin;
use std::fmt;

/// A verdict: who keeps the name of a clash.
#[derive(Clone, Copy, Debug, PartialEq, Eq)]
pub enum Verdict3 {
    /// The owner of the first registration.
    First,
    /// The owner of the second registration.
    Second,
    /// Neither: the name is unregistered.
    Neither,
}

impl Verdict3 {
    /// Returns the verdict of a program's answer: 1 is the first, 2 the second, any other neither.
    pub fn of_answer(answer: u64) -> Verdict3
        ensures { result ≡ verdict_of_answer answer }
    {
        match answer {
            1 => Verdict3::First,
            2 => Verdict3::Second,
            _ => Verdict3::Neither,
        }
    }

    /// Returns its word: `first`, `second` or `none`.
    pub fn as_str(self) -> &'static str
        ensures { result.now ≡ verdict_text self }
    {
        match self {
            Verdict3::First => "first",
            Verdict3::Second => "second",
            Verdict3::Neither => "none",
        }
    }
}

impl fmt::Display for Verdict3 {
    ghost output = { λ verdict. Some (verdict_text verdict) };

    fn fmt<W: fmt::Write>(&self, f: &mut fmt::Formatter<W>) -> fmt::Result {
        f.write_str(self.as_str())
    }
}

/// Returns the verdict of a built-in resolver at a word.
///
/// Exit and notify choose by the word's lowest bit; notify-all chooses neither.
pub fn decide(resolver: Builtin, word: u64) -> Verdict3
    ensures { result ≡ builtin_verdict resolver word }
{
    match resolver {
        Builtin::Exit | Builtin::Notify => {
            if word % 2 == 0 {
                Verdict3::First
            } else {
                Verdict3::Second
            }
        }
        Builtin::NotifyAll => Verdict3::Neither,
    }
}
