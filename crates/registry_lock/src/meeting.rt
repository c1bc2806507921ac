//! The meeting of two sides that finished the exchange of one board.
ghost use Rattle.std.specs.Prelude.{◌≡◌, IfOk, IfErr, OnOk};
ghost use Rattle.exchange_core.specs.Finished.{IsFinished};
ghost use Rattle.registry_lock.specs.Meeting.{StillSees, AgreesWith, HaveSeed, HaveNumber, SamePair};
ghost use Rattle.registry_lock.specs.Meeting.{IsHealed, IsFault, IsOfRuling};

use crate::comparing::{compare, same_pair};
use crate::fault::MeetFault;
use crate::healed::Healed;
use exchange_core::Finished;
use verdict_board::{Board, Pass};

/// Returns the one table of two sides that finished the board's exchange.
///
/// Requires a pass of this board. Refusals, the least first: 36 if the seeds of the two and of the board differ, 45 if
/// the numbers do, 49 if the two merged other tables, with other uptimes or without other names. Checked last: 38 with
/// the least clash at which one of the two holds another word or answer than the board shows. Allocates nothing and
/// never waits.
pub fn meet<'p>(
    board: &Board<'p>,
    pass: &mut Pass<'p>,
    first: Finished,
    second: Finished,
) -> Result<Healed, MeetFault>
    requires board { pass.old.place ≡ board.now.place }
    // The pass still sees what it had seen.
    ensures keeps { StillSees pass.old pass.new }
    // Both have one table: the merge of the one pair under the rulings that the pass has then seen, each the board's.
    ensures healed { IfOk result (λ healed. IsHealed board.now.place pass.new first second healed) }
    // Each refusal has its cause.
    ensures fault { IfErr result (λ fault. IsFault board.now.place pass.old pass.new first second fault) }
    // A pass that had seen the rulings that they hold refuses none of them.
    ensures seen { AgreesWith pass.old first.rulings → AgreesWith pass.old second.rulings
        → IfErr result (λ fault. ¬ IsOfRuling fault) }
{
    agree(board, pass, &first, &second)?;
    Ok(Healed {
        table: first.into_table(),
    })
}

// Rejects two sides whose exchanges differ.
fn agree<'p>(
    board: &Board<'p>,
    pass: &mut Pass<'p>,
    first: &Finished,
    second: &Finished,
) -> Result<(), MeetFault>
    requires board { pass.old.place ≡ board.now.place }
    ensures keeps { StillSees pass.old pass.new }
    ensures board { OnOk result (pass.new.place ≡ board.now.place) }
    ensures seed { OnOk result (HaveSeed board.now.place first.now second.now) }
    ensures number { OnOk result (HaveNumber board.now.place first.now second.now) }
    ensures pair { OnOk result (SamePair first.now second.now) }
    ensures finished { OnOk result (IsFinished first.now × IsFinished second.now) }
    ensures agrees { OnOk result (AgreesWith pass.new first.now.rulings × AgreesWith pass.new second.now.rulings) }
    ensures fault { IfErr result (λ fault. IsFault board.now.place pass.old pass.new first.now second.now fault) }
    ensures seen { AgreesWith pass.old first.now.rulings → AgreesWith pass.old second.now.rulings
        → IfErr result (λ fault. ¬ IsOfRuling fault) }
{
    if first.seed() != board.seed() || second.seed() != board.seed() {
        return Err(MeetFault::SeedDiffers);
    }
    if first.number() != board.number() || second.number() != board.number() {
        return Err(MeetFault::OtherNumber);
    }
    if !same_pair(first, second) {
        return Err(MeetFault::OtherPair);
    }
    if let Err(k) = compare(board, pass, first, second) {
        return Err(MeetFault::StrangeRuling(k));
    }
    Ok(())
}
