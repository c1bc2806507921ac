//! The agreement of two halves that settle, each in its own process.
ghost use Rattle.std.specs.Prelude.{◌≡◌, List};
ghost use Rattle.clash_record.specs.declared.side_id.SideId.{SideId};
ghost use Rattle.exchange_core.specs.Finished.{Finished};
ghost use Rattle.exchange_law.specs.Sides.{Side};
ghost use Rattle.exchange_law.specs.Worlds.{Event};
ghost use Rattle.exchange_core.specs.Halves.{Act, ActsAreCalls, BothFinish, FinishesWith, IsSettledMerge, SettlesByEvents};

/// Two halves that exchange offers and lists, settle, and finish one number have one outcome: one table, the merge of the
/// tables that they offered, each clash decided by its resolver at the word of round 0.
///
/// Does nothing at run time. Its contract holds of all that two processes can do, each with its half.
pub fn two_halves_theorem()
    // Whichever halves finish the number, and whenever.
    ensures one_outcome { (acts : List Act) (i j : SideId) (f g : Finished) (m n : Side)
        → FinishesWith acts i f m → FinishesWith acts j g n → f.number ≡ g.number → f ≡ g }
    ensures merge { (acts : List Act) (id : SideId) (outcome : Finished) (new : Side)
        → FinishesWith acts id outcome new → IsSettledMerge acts outcome new }
    // Each act but a settling leaves both halves as the call that it is.
    ensures calls { (acts : List Act) → ActsAreCalls acts }
    // Two halves can finish.
    ensures witness { BothFinish }
    // In a history of events, settling is judging each clash in round 0 and taking its ruling.
    ensures settles { (history : List Event) → SettlesByEvents history }
{}
