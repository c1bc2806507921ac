//! Comparing two finished exchanges with each other and with the board.
ghost use Rattle.std.specs.Prelude.{◌≡◌, Some, IfErr, OnOk, slice_get};
ghost use Rattle.std.specs.Bool.{Decides};
ghost use Rattle.std.specs.Option.{option_map};
ghost use Rattle.exchange_core.specs.Finished.{IsFinished};
ghost use Rattle.verdict_board.specs.Boards.{as_ruling};
ghost use Rattle.registry_lock.specs.model.Halves.{half_of};
ghost use Rattle.registry_lock.specs.Meeting.{judged_of, SameHalf, half_a, half_b, SamePair};
ghost use Rattle.registry_lock.specs.Meeting.{StillSees, AgreesWith, IsStrangeAt};

use builtin_resolvers::Verdict3;
use clash_record::Name;
use exchange_core::{Finished, Judged};
use partition_table::{Ruling, Table};
use verdict_board::{Board, Pass};

// One of the two halves of a merge.
#[derive(Clone, Copy)]
struct Half<'a> {
    table: &'a Table,
    uptime: u64,
    gone: &'a [Name],
}

// Checks whether the two merged the same tables, with the same uptimes, without the same names.
pub(crate) fn same_pair(first: &Finished, second: &Finished) -> bool
    ensures { Decides result (SamePair first.now second.now) }
{
    same_half(half_a(first), half_a(second)) && same_half(half_b(first), half_b(second))
}

fn half_a(finished: &Finished) -> Half<'_>
    ensures { half_of result ≡ half_a finished.entry.now }
{
    Half {
        table: finished.a(),
        uptime: finished.uptime_a(),
        gone: finished.gone_a(),
    }
}

fn half_b(finished: &Finished) -> Half<'_>
    ensures { half_of result ≡ half_b finished.entry.now }
{
    Half {
        table: finished.b(),
        uptime: finished.uptime_b(),
        gone: finished.gone_b(),
    }
}

fn same_half(mine: Half<'_>, theirs: Half<'_>) -> bool
    ensures { Decides result (SameHalf (half_of mine.entry) (half_of theirs.entry)) }
{
    same_table(mine.table, theirs.table)
        && mine.uptime == theirs.uptime
        && same_names(mine.gone, theirs.gone)
}

fn same_table(a: &Table, b: &Table) -> bool
    ensures { Decides result (a.now ≡ b.now) }
{
    a == b
}

fn same_names(a: &[Name], b: &[Name]) -> bool
    ensures { Decides result (a.now ≡ b.now) }
{
    a == b
}

// Checks that the board shows the rulings that both hold; else returns the least clash at which it doesn't.
pub(crate) fn compare<'p>(
    board: &Board<'p>,
    pass: &mut Pass<'p>,
    first: &Finished,
    second: &Finished,
) -> Result<(), u32>
    requires board { pass.old.place ≡ board.now.place }
    requires pair { SamePair first.now second.now }
    ensures finished { IsFinished first.entry.now × IsFinished second.entry.now }
    ensures keeps { StillSees pass.old pass.new }
    ensures agrees { OnOk result (AgreesWith pass.new first.now.rulings × AgreesWith pass.new second.now.rulings) }
    ensures strange { IfErr result (λ k. IsStrangeAt k pass.new first.now.rulings second.now.rulings) }
{
    let (mine, theirs) = (first.rulings(), second.rulings());
    // Each clash is of a name that A has.
    let most = first.a().len() as u32;
    for k in 0..most {
        let (Some(mine), Some(theirs)) = (held_at(mine, k), held_at(theirs, k)) else {
            return Ok(());
        };
        let found = board.read(k, pass);
        if !is_shown(found, mine) || !is_shown(found, theirs) {
            return Err(k);
        }
    }
    Ok(())
}

// Returns the ruling of clash k, if any.
fn held_at(rulings: &[Judged], k: u32) -> Option<Judged>
    ensures { result ≡ slice_get rulings.now k }
{
    rulings.get(k as usize).copied()
}

// Checks that the ruling on the board is the one that is held.
fn is_shown(found: Option<Ruling<'_>>, held: Judged) -> bool
    ensures { Decides result (judged_of (option_map as_ruling found.entry) ≡ Some held) }
{
    match found {
        Some(ruling) => {
            ruling.verdict.word() == held.word && is_same(ruling.verdict.answer(), held.answer)
        }
        None => false,
    }
}

fn is_same(a: Verdict3, b: Verdict3) -> bool
    ensures { Decides result (a ≡ b) }
{
    a == b
}
