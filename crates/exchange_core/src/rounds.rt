//! The agreement of two sides that settled in one round.
ghost use Rattle.std.specs.Prelude.{◌≡◌, ℕ};
ghost use Rattle.exchange_core.specs.Finished.{Finished, IsFinished};
ghost use Rattle.exchange_core.specs.Settling.{IsOfRound};

use crate::finished::Finished;

/// Two sides that finished one pair of tables with one seed, all by rulings of one round, hold one table.
///
/// It does nothing when it runs.
pub fn one_round_theorem(one: &Finished, other: &Finished)
    ensures { (round : ℕ) → one.now.seed ≡ other.now.seed → one.now.a ≡ other.now.a
        → one.now.uptime_a ≡ other.now.uptime_a → one.now.b ≡ other.now.b → one.now.uptime_b ≡ other.now.uptime_b
        → one.now.gone ≡ other.now.gone → IsOfRound round one.now → IsOfRound round other.now
        → one.now.table ≡ other.now.table }
{
    // For the prover: both are finished.
    one.rulings();
    other.rulings();
}
