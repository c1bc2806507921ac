//! Which names of clashes a merge keeps.
ghost use Rattle.std.specs.Prelude.{◌≡◌, ◌↔◌, IsFalse, [], length, map, is_some};
ghost use Rattle.std.specs.FinMap.{get};
ghost use Rattle.exchange_core.specs.Finished.{clashes_merged};
ghost use Rattle.c_calls.specs.Outcomes.{has_winner, is_kept};

use builtin_resolvers::Verdict3;
use clash_record::Name;
use exchange_core::{Finished, Judged};
use partition_table::{Clash, Finder, Table, clashes_theorem, merge_theorem};

// Marks each clash whose name the merged table has.
#[tactic(auto, using(crate::proofs::ClashMarks::winners_kept))]
pub(crate) fn mark_kept(finished: &Finished, clashes: &[Clash], kept: &mut [bool])
    requires clashes { clashes.now ≡ clashes_merged finished.now }
    requires places { length kept.old ≡ length clashes.now }
    ensures { kept.new ≡ map (is_kept finished.now) clashes.now }
{
    if has_withdrawn(finished) {
        return mark_found(finished.table(), clashes, kept);
    }
    // For the proof: the merge is defined name by name.
    merge_theorem();
    clashes_theorem();
    // Each winner keeps its name.
    mark_won(finished.rulings(), kept);
}

// Checks whether a half withdrew a name.
fn has_withdrawn(finished: &Finished) -> bool
    ensures { IsFalse result ↔ ((finished.now.gone.of_a ≡ []) × (finished.now.gone.of_b ≡ [])) }
{
    !(finished.gone_a().is_empty() && finished.gone_b().is_empty())
}

// Marks each ruling that has a winner.
fn mark_won(rulings: &[Judged], kept: &mut [bool])
    requires { length kept.old ≡ length rulings.now }
    ensures { kept.new ≡ map (λ judged. has_winner judged.answer) rulings.now }
{
    let mut i = 0;
    while i < rulings.len() {
        kept[i] = has_winner(rulings[i].answer);
        i += 1;
    }
}

// Checks whether the verdict has a winner.
fn has_winner(verdict: Verdict3) -> bool
    ensures { result ≡ has_winner verdict }
{
    match verdict {
        Verdict3::First | Verdict3::Second => true,
        Verdict3::Neither => false,
    }
}

// Marks each clash whose name the table has. The clashes are in the order of names, so that the table is walked once.
fn mark_found(table: &Table, clashes: &[Clash], found: &mut [bool])
    requires { length found.old ≡ length clashes.now }
    ensures { found.new ≡ map (λ clash. is_some (get table.now clash.name)) clashes.now }
{
    let mut rows = Finder::new(table);
    let mut i = 0;
    while i < clashes.len() {
        found[i] = has_name(&mut rows, clashes[i].name());
        i += 1;
    }
}

// Checks whether the table has the name.
fn has_name(table: &mut Finder<'_>, name: &Name) -> bool
    ensures answer { result ≡ is_some (get table.old name.now) }
    ensures same { table.new ≡ table.old }
{
    table.find(name).is_some()
}
