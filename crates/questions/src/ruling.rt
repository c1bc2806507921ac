//! Judges one clash by a program.
ghost use Rattle.std.specs.Prelude.{◌≡◌};
ghost use Rattle.questions.specs.Judging.{IsRuling};

use builtin_resolvers::Verdict3;
use clash_record::ClashRecord;
use interpreter::run;
use std::marker::Model;
use verifier::Verified;

/// A program, the record of a clash, and the program's answer to it.
#[derive(Debug, Drop)]
pub struct Answered<'p> {
    program: &'p Verified,
    clash: &'p ClashRecord,
    verdict: Verdict3,
    answer: u64,
    steps: u32,
}

impl<'p> Model for Answered<'p> {
    ghost use Rattle.questions.specs.Judging.{ClashRuling, IsRuling, ruling};

    ghost Value = { ClashRuling };

    ghost view = { λ a. ruling a.program.now a.clash.now a.verdict a.answer a.steps };

    ghost invariant = { λ a. IsRuling (ruling a.program.now a.clash.now a.verdict a.answer a.steps) };
}

impl<'p> Answered<'p> {
    ghost use Rattle.questions.specs.Judging.{IsRuling};

    /// Returns the program.
    pub fn program(&self) -> &'p Verified
        ensures { result.now ≡ self.now.code }
    {
        self.program
    }

    /// Returns the record of the clash.
    pub fn record(&self) -> &'p ClashRecord
        ensures { result.now ≡ self.now.bytes }
    {
        self.clash
    }

    /// Returns the verdict: that of the program's meaning on the record.
    pub fn verdict(&self) -> Verdict3
        ensures value { result ≡ self.now.verdict }
        ensures ruling { IsRuling self.now }
    {
        self.verdict
    }

    /// Returns the answer of the program, R0 at its end: the program's meaning on the record.
    pub fn answer(&self) -> u64
        ensures value { result ≡ self.now.answer }
        ensures ruling { IsRuling self.now }
    {
        self.answer
    }

    /// Returns the number of executed instructions, which is the same at every placement.
    pub fn steps(&self) -> u32
        ensures value { result ≡ self.now.steps }
        ensures ruling { IsRuling self.now }
    {
        self.steps
    }
}

/// Runs the program on the record. Never fails and never allocates.
pub fn judge_one<'p>(program: &'p Verified, clash: &'p ClashRecord) -> Answered<'p>
    ensures program { result.code ≡ program.now }
    ensures clash { result.bytes ≡ clash.now }
    ensures ruling { IsRuling result }
{
    let ended = run(program, clash);
    Answered {
        program,
        clash,
        verdict: Verdict3::of_answer(ended.r0),
        answer: ended.r0,
        steps: ended.steps,
    }
}
