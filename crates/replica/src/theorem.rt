//! The agreement of replicas over every history.
ghost use Rattle.std.specs.Prelude.{List};
ghost use Rattle.exchange_law.specs.Worlds as exchange;
ghost use Rattle.replica.specs.Halves as half;
ghost use Rattle.replica.specs.Nodes.{NodeEvent};
ghost use Rattle.replica.specs.Histories.{AreCalls, EditsLead, EntriesAgree, HaveOneHalf, HoldTheMerge, LivesStart, LogsRestore, NextEntriesApply, NodeCallsHappen, RefusalsChangeNothing, SnapshotsAgree};

use exchange_core::history_theorem;
use replica_law::{Replicated, agreement_theorem};

// A half as a machine.
struct Halves;

impl Replicated for Halves {
    ghost State = { half.HalfState };

    ghost Edit = { half.Edit };

    ghost machine = { half.halves };
}

/// Replicas at one position hold one half: one table, the same programs and one greatest number of exchanges.
///
/// It does nothing when it runs. Its contract is proved of every history of any number of replicas, in which entries and
/// snapshots are lost, repeated, reordered and delayed. No two lives of a node share an incarnation there.
pub fn replicas_theorem()
    // At any two times.
    ensures one_half { (later earlier : List NodeEvent) → HaveOneHalf later earlier }
    // So a snapshot of the start of a view, followed by the entries of the view, is the replica that applied them.
    ensures edits { (later earlier : List NodeEvent) → EditsLead later earlier }
    ensures one_edit { (history : List NodeEvent) → EntriesAgree history }
    ensures snapshots { (history : List NodeEvent) → SnapshotsAgree history }
    // No replica gets stuck at an entry that it has come to.
    ensures takes { (history : List NodeEvent) → NextEntriesApply history }
    // Each event is the call that it names. Each call that receives nothing, or a message that was made, may be an event.
    ensures calls { (history : List NodeEvent) → AreCalls history }
    ensures refusals { (history : List NodeEvent) → RefusalsChangeNothing history }
    ensures starts { (history : List NodeEvent) → LivesStart history }
    ensures happen { (history : List NodeEvent) → NodeCallsHappen history }
    // A log of a snapshot and the entries after it gives the half that the replica which wrote it had at its last entry.
    ensures logs { (later earlier : List NodeEvent) → LogsRestore later earlier }
    // After an exchange, each node that follows its outcome holds the merge, with the edits made since.
    ensures merge { (history : List NodeEvent) (exchange : List exchange.Event) → HoldTheMerge history exchange }
{
    agreement_theorem::<Halves>();
    history_theorem();
}
