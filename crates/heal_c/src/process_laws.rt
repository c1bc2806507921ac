//! The agreement of two processes that use the library.
ghost use Rattle.std.specs.Prelude.{◌≡◌, List, ◌∷◌};
ghost use Rattle.exchange_core.specs.Finished.{Finished, IsFinished};
ghost use Rattle.exchange_core.specs.Settling.{IsOfRound, the_round};
ghost use Rattle.heal_c.specs.Processes.{HasOutcome, IsHistory, Processes};

use exchange_core::two_halves_theorem;

/// Two processes that make any calls of the library on a side, each on one that was created empty, and hear only what the other's
/// calls returned, have one outcome of each number that both finish.
///
/// It does nothing when it runs. Its contract is proved of all runs of two processes.
pub fn two_processes_theorem()
    ensures one_outcome { (p : Processes) (earlier : List Processes) (f g : Finished) → IsHistory (p ∷ earlier)
        → HasOutcome p f → HasOutcome p g → f.number ≡ g.number → f ≡ g }
    // Its table is the merge of its two tables, each clash decided at the word of round 0.
    ensures merge { (p : Processes) (earlier : List Processes) (f : Finished) → IsHistory (p ∷ earlier) → HasOutcome p f
        → IsFinished f × IsOfRound the_round f }
{
    // For the proof: two halves that settle have one outcome.
    two_halves_theorem();
}
