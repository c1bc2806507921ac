//! The outcome of an exchange.
ghost use Rattle.std.specs.Prelude.{◌≡◌, [], length, map, IfOk};
ghost use Rattle.std.specs.Arc.{arc_value};
ghost use Rattle.std.specs.Option.{option_map_or};
ghost use Rattle.exchange_core.specs.Finished.{clashes_merged};
ghost use Rattle.c_calls.specs.Outcomes.{IsOutcome, IsRoomFor, clash_code_at, clashes_in, half_of_first, name_keeper, gone_names, notice_at, notices_by, notices_to, marked_ruling, wins, withdrawn_of};

use crate::answer::INDEX_OUT_OF_RANGE;
use crate::codes::{
    HealClash, HealName, HealNotice, name_code, notice_code, registration_code, side_code, side_id,
    verdict_code,
};
use crate::marking::mark_kept;
use builtin_resolvers::{Notices, Verdict3, notices};
use clash_record::{Name, ResolverId, SideId};
use exchange_core::{Finished, Judged};
use partition_table::{Clash, ClashList};
use std::alloc::{AllocError, Global};
use std::sync::Arc;

/// Whether the merged table has the name of a clash, and whether half A registered the first of the two.
#[derive(Clone, Copy, Debug)]
pub struct Mark {
    kept: bool,
    of_a: bool,
}

/// The exchange's number, the number of names in the merged table, each clash with its ruling, and the names that each half withdrew.
///
/// `kept` has for each clash whether the merged table has its name, and `of_a` whether half A registered the first of the two.
#[derive(Debug, Drop)]
pub struct Outcome {
    pub number: u64,
    pub merged: usize,
    pub clashes: Arc<ClashList>,
    pub rulings: Vec<Judged>,
    pub kept: Vec<bool>,
    pub of_a: Vec<bool>,
    pub gone_a: Vec<Name>,
    pub gone_b: Vec<Name>,
}

impl Outcome {
    // Returns an outcome of these clashes and withdrawn names, without rulings, and with a place for whether each name is kept.
    pub(crate) fn new(
        alloc: Global,
        clashes: Arc<ClashList>,
        gone_a: Vec<Name>,
        gone_b: Vec<Name>,
    ) -> Result<Outcome, AllocError>
        ensures gone_a { IfOk result (λ room. room.gone_a.items ≡ gone_a.items) }
        ensures gone_b { IfOk result (λ room. room.gone_b.items ≡ gone_b.items) }
        ensures clashes { IfOk result (λ room. clashes_in room ≡ arc_value clashes) }
        ensures kept { IfOk result (λ room. length room.kept.items ≡ length (arc_value clashes)) }
    {
        let kept = vec![in alloc; false; clashes.len()]?;
        Ok(Outcome {
            number: 0,
            merged: 0,
            clashes,
            rulings: Vec::new(alloc),
            kept,
            of_a: Vec::new(alloc),
            gone_a,
            gone_b,
        })
    }

    // Fills in the numbers, and moves the rulings and what is known of each clash here. Allocates nothing.
    pub(crate) fn fill(&mut self, finished: Finished)
        requires { IsRoomFor (clashes_merged finished) finished.gone self.old }
        ensures { IsOutcome finished self.new }
    {
        self.number = finished.number();
        self.merged = finished.table().len();
        let clashes = self.clashes.iter().as_slice();
        mark_kept(&finished, clashes, &mut self.kept);
        (self.rulings, self.of_a) = finished.into_rulings();
    }

    /// Returns the number of clashes.
    pub fn len(&self) -> usize
        ensures { result ≡ length (clashes_in self.now) }
    {
        self.clashes.len()
    }

    // Returns the clashes.
    fn clashes(&self) -> &[Clash]
        ensures { result.now ≡ clashes_in self.now }
    {
        self.clashes.iter().as_slice()
    }

    // Returns the ruling and the mark of clash `i`.
    fn ruling(&self, i: usize) -> Option<(Judged, Mark)>
        ensures { result ≡ marked_ruling self.now i }
    {
        let judged = *self.rulings.get(i)?;
        let kept = *self.kept.get(i)?;
        let of_a = *self.of_a.get(i)?;
        Some((judged, Mark { kept, of_a }))
    }

    /// Writes clash `i`, or returns 92.
    pub fn clash(&self, i: usize) -> Result<HealClash, u32>
        ensures { result ≡ clash_code_at self.now i }
    {
        let Some(clash) = self.clashes().get(i) else {
            return Err(INDEX_OUT_OF_RANGE);
        };
        let Some((judged, mark)) = self.ruling(i) else {
            return Err(INDEX_OUT_OF_RANGE);
        };
        Ok(HealClash {
            name: name_code(clash.name()),
            first: registration_code(clash.first()),
            second: registration_code(clash.second()),
            word: judged.word,
            verdict: verdict_code(judged.answer),
            keeps: verdict_code(keeper(mark.kept, judged.answer)),
            first_half: side_code(first_half(mark)),
            notices: count_notices(clash, judged.answer, mark.kept),
            reserved: 0,
        })
    }

    /// Writes name `i` of those that a half withdrew, or returns 74 or 92.
    pub fn withdrawn(&self, half: u32, i: usize) -> Result<HealName, u32>
        ensures { result ≡ withdrawn_of half i self.now }
    {
        let id = side_id(half)?;
        match self.names_of(id).get(i) {
            Some(name) => Ok(name_code(name)),
            None => Err(INDEX_OUT_OF_RANGE),
        }
    }

    // Returns the names that a half withdrew.
    fn names_of(&self, id: SideId) -> &[Name]
        ensures { result.now ≡ gone_names id self.now }
    {
        match id {
            SideId::A => &self.gone_a,
            SideId::B => &self.gone_b,
        }
    }

    /// Writes notice `n` of clash `i`, or returns 92.
    pub fn notice(&self, i: usize, n: usize) -> Result<HealNotice, u32>
        ensures { result ≡ notice_at self.now i n }
    {
        let Some(clash) = self.clashes().get(i) else {
            return Err(INDEX_OUT_OF_RANGE);
        };
        let Some((judged, mark)) = self.ruling(i) else {
            return Err(INDEX_OUT_OF_RANGE);
        };
        let Some(notices) = notices_to(clash, judged.answer, mark.kept) else {
            return Err(INDEX_OUT_OF_RANGE);
        };
        match notices.as_slice().get(n) {
            Some(notice) => Ok(notice_code(notice)),
            None => Err(INDEX_OUT_OF_RANGE),
        }
    }
}

// Returns who keeps the name.
fn keeper(kept: bool, verdict: Verdict3) -> Verdict3
    ensures { result ≡ name_keeper kept verdict }
{
    if kept { verdict } else { Verdict3::Neither }
}

// Returns the half that registered the first of the two.
fn first_half(mark: Mark) -> SideId
    ensures { result ≡ half_of_first mark }
{
    if mark.of_a { SideId::A } else { SideId::B }
}

// Checks that a winner keeps the name.
fn wins(verdict: Verdict3, kept: bool) -> bool
    ensures { result ≡ wins verdict kept }
{
    match verdict {
        Verdict3::First | Verdict3::Second => kept,
        Verdict3::Neither => true,
    }
}

// Returns the notices to deliver, if the verdict is a built-in resolver's and its winner keeps the name.
fn notices_to(clash: &Clash, verdict: Verdict3, kept: bool) -> Option<Notices>
    ensures { option_map_or (λ notices. notices) result [] ≡ notices_to clash.now verdict kept }
{
    if wins(verdict, kept) {
        notices_of(clash, verdict)
    } else {
        None
    }
}

// Returns the notices of a verdict of a built-in resolver.
fn notices_of(clash: &Clash, verdict: Verdict3) -> Option<Notices>
    ensures { option_map_or (λ notices. notices) result [] ≡ notices_by clash.now.first.resolver clash.now verdict }
{
    match clash.resolver() {
        ResolverId::Builtin(builtin) => Some(notices(
            builtin,
            clash.name(),
            clash.first().owner,
            clash.second().owner,
            verdict,
        )),
        ResolverId::Program(_) => None,
    }
}

// Counts the notices to deliver.
fn count_notices(clash: &Clash, verdict: Verdict3, kept: bool) -> u32
    ensures { result ≡ length (notices_to clash.now verdict kept) }
{
    match notices_to(clash, verdict, kept) {
        Some(notices) => notices.len() as u32,
        None => 0,
    }
}
