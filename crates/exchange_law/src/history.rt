//! The agreement of two sides over every history.
ghost use Rattle.std.specs.Prelude.{◌≡◌, List, ℕ};
ghost use Rattle.partition_table.specs.Tables.{Table};
ghost use Rattle.clash_record.specs.declared.side_id.SideId.{SideId};
ghost use Rattle.exchange_law.specs.Worlds.{Event};
ghost use Rattle.exchange_law.specs.History.{FinishedWith, IsLawfulMerge};

/// Two sides that finish one number hold, as they finish, one table: the merge of the tables with which they began it.
///
/// It does nothing when it runs. Its contract is proved of every history.
pub fn history_theorem()
    // Whichever sides finish the number, and whenever.
    ensures one_table { (history : List Event) (number : ℕ) (i j : SideId) (a b : Table)
        → FinishedWith history i number a → FinishedWith history j number b → a ≡ b }
    // Both began it with one seed and closed their lists, and each clash is decided by its resolver at one lawful word.
    ensures merge { (history : List Event) (number : ℕ) (id : SideId) (table : Table)
        → FinishedWith history id number table → IsLawfulMerge history number table }
{}
