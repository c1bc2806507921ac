//! Verdicts and rulings.
ghost use Rattle.std.specs.Prelude.{◌≡◌};
ghost use Rattle.partition_table.specs.Tables as tables;

use crate::clash::Clash;
use builtin_resolvers::Verdict3;

/// The answer of a clash's resolver at a word. The type guarantees that the answer is the resolver's.
#[derive(Clone, Copy, Debug)]
pub struct Verdict<'a> {
    pub(crate) clash: &'a Clash,
    pub(crate) word: u64,
    pub(crate) answer: Verdict3,
    pub ghost judged: { answer ≡ tables.answer clash.now word },
}

/// A verdict of clash `k` of exchange `number`.
#[derive(Clone, Copy, Debug)]
pub struct Ruling<'a> {
    /// The number of the exchange.
    pub number: u64,
    /// The position of the clash, counted from 0 in the order of names.
    pub k: u32,
    /// The verdict.
    pub verdict: Verdict<'a>,
}
