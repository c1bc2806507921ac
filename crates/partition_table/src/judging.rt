//! Judging a clash.
ghost use Rattle.std.specs.Prelude.{◌≡◌};
ghost use Rattle.partition_table.specs.Tables.{word_of};
ghost use Rattle.partition_table.specs.Tables as tables;
ghost use Rattle.partition_table.specs.Rulings as rulings;
ghost use Rattle.partition_table.specs.Judged.{clash_of_verdict, word_of_verdict, answer_of_verdict};

use crate::clash::Clash;
use crate::verdict::Verdict;
use builtin_resolvers::{Verdict3, decide};
use clash_record::ResolverId;
use interpreter::{Scratch, run_written};

impl<'a> Verdict<'a> {
    /// Runs the clash's resolver on its record at this word. Allocates nothing.
    ///
    /// `judged_in` saves clearing a memory for each program that runs.
    pub fn judged(clash: &'a Clash, word: u64) -> Verdict<'a>
        ensures clash { clash_of_verdict result ≡ clash.entry.now }
        ensures word { word_of_verdict result ≡ word }
    {
        match clash.resolver() {
            ResolverId::Builtin(builtin) => Verdict::known(clash, word, decide(builtin, word)),
            ResolverId::Program(_) => Verdict::judged_in(&mut Scratch::new(), clash, word),
        }
    }

    /// Runs the clash's resolver on its record at this word, as `judged` does, in a scratch memory, which may hold the
    /// bytes of earlier runs. Writes the record once, to the place where the run reads it.
    pub fn judged_in(scratch: &mut Scratch, clash: &'a Clash, word: u64) -> Verdict<'a>
        ensures clash { clash_of_verdict result ≡ clash.entry.now }
        ensures word { word_of_verdict result ≡ word }
    {
        Verdict {
            clash,
            word,
            answer: answer(scratch, clash, word),
        }
    }

    /// Returns the verdict of a clash at a word whose answer is known. Runs nothing.
    ///
    /// Requires the answer of the clash's resolver at this word.
    pub fn known(clash: &'a Clash, word: u64, answer: Verdict3) -> Verdict<'a>
        requires { answer ≡ tables.answer clash.now word }
        ensures clash { clash_of_verdict result ≡ clash.entry.now }
        ensures word { word_of_verdict result ≡ word }
    {
        Verdict {
            clash,
            word,
            answer,
        }
    }

    /// Returns the clash.
    pub fn clash(self) -> &'a Clash
        ensures { result.now ≡ clash_of_verdict self.entry }
    {
        self.clash
    }

    /// Returns the word.
    pub fn word(self) -> u64
        ensures { result ≡ word_of_verdict self.entry }
    {
        self.word
    }

    /// Returns the resolver's answer.
    pub fn answer(self) -> Verdict3
        ensures value { result ≡ answer_of_verdict self.entry }
        ensures judged { result ≡ tables.answer (clash_of_verdict self.entry) (word_of_verdict self.entry) }
    {
        self.answer
    }
}

/// Returns the word of clash `k` of `n` in a round: `seed + round * n + k`, modulo 2^64.
pub fn word(seed: u64, round: u32, n: u32, k: u32) -> u64
    ensures { result ≡ word_of seed round n k }
{
    seed.wrapping_add(u64::from(round) * u64::from(n))
        .wrapping_add(u64::from(k))
}

/// Returns the least of rounds 0 to 3 in which this is the word of clash `k` of `n`, if any. Computes no word.
pub fn round_of(word: u64, seed: u64, n: u32, k: u32) -> Option<u32>
    ensures { result ≡ rulings.round_of word seed n k }
{
    let past = word.wrapping_sub(seed).wrapping_sub(u64::from(k));
    let n = u64::from(n);
    if past == 0 {
        Some(0)
    } else if past == n {
        Some(1)
    } else if past == 2 * n {
        Some(2)
    } else if past == 3 * n {
        Some(3)
    } else {
        None
    }
}

// Returns the answer of the first registration's resolver at the word. A program runs in the scratch memory.
fn answer(scratch: &mut Scratch, clash: &Clash, word: u64) -> Verdict3
    ensures { result ≡ tables.answer clash.now word }
{
    match clash.resolver() {
        ResolverId::Builtin(builtin) => decide(builtin, word),
        ResolverId::Program(_) => match clash.program() {
            Some(program) => {
                clash.write_record(scratch, word);
                Verdict3::of_answer(run_written(scratch, program).r0)
            }
            None => Verdict3::Neither,
        },
    }
}
