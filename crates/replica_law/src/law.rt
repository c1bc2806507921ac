//! The agreement of replicas over every history.
ghost use Rattle.std.specs.Prelude.{List};
ghost use Rattle.replica_law.specs.Groups.{GroupEvent, Machine};
ghost use Rattle.replica_law.specs.Histories.{AppliesHappen, EditsHappen, EntriesLead, FollowsHappen, HasOneEdit, HasOneSnapshot, HasOneState, HasOneStateEver, HoldsSnapshots, IsExact, TakesEntries};
ghost use Rattle.replica_law.specs.Rules.{GivesTwoEdits, GivesTwoStates, LeadTells, ViewServes, ViewTells, changes_in_place, in_own_latest, in_own_view, is_any, starts_again};

/// Any machine: its states, its edits and its step, which refuses some edits.
pub trait Replicated {
    ghost State: { Type 0 };

    ghost Edit: { Type 0 };

    ghost machine: { Machine State Edit };
}

/// Replicas at one position have one state, after any history of any number of replicas.
///
/// It does nothing when it runs. Its contract is proved of every history.
pub fn agreement_theorem<M: Replicated>()
    ensures one_state { (history : List (GroupEvent M.State M.Edit)) → HasOneState M.machine history }
    // Nor does the state of a position change in time.
    ensures lasting { (later earlier : List (GroupEvent M.State M.Edit)) → HasOneStateEver M.machine later earlier }
    // The entries of a view lead to each of its positions.
    ensures lead { (later earlier : List (GroupEvent M.State M.Edit)) → EntriesLead M.machine later earlier }
    ensures one_edit { (history : List (GroupEvent M.State M.Edit)) → HasOneEdit M.machine history }
    ensures one_snapshot { (history : List (GroupEvent M.State M.Edit)) → HasOneSnapshot M.machine history }
    ensures snapshots { (history : List (GroupEvent M.State M.Edit)) → HoldsSnapshots M.machine history }
    // No replica gets stuck at an entry that it has come to.
    ensures takes { (history : List (GroupEvent M.State M.Edit)) → TakesEntries M.machine history }
    // In its latest view a replica may make an entry wherever that gives no position to two.
    ensures exact { (history : List (GroupEvent M.State M.Edit)) → IsExact M.machine history }
    // A replica that takes no snapshot of some views may make an entry at each of its positions in them.
    ensures view_tells { (history : List (GroupEvent M.State M.Edit)) → ViewTells M.machine history }
    // So the view alone may decide whether a replica makes entries.
    ensures view_serves { (history : List (GroupEvent M.State M.Edit)) → ViewServes M.machine history }
    // One that has followed nothing since it started a view is its primary.
    ensures lead_tells { (history : List (GroupEvent M.State M.Edit)) → LeadTells M.machine history }
    // Edits, snapshots and entries are carried out where they can be.
    ensures edits { (history : List (GroupEvent M.State M.Edit)) → EditsHappen M.machine history }
    ensures follows { (history : List (GroupEvent M.State M.Edit)) → FollowsHappen M.machine history }
    ensures applies { (history : List (GroupEvent M.State M.Edit)) → AppliesHappen M.machine history }
{}

/// Laxer rules, each of which gives a position to two edits or two states.
pub fn lax_rules_theorem()
    ensures own_latest { GivesTwoEdits in_own_latest }
    ensures own { GivesTwoEdits in_own_view }
    ensures all { GivesTwoEdits is_any }
    // A change must start a view, and a node that starts anew a life.
    ensures in_place { GivesTwoStates changes_in_place }
    ensures again { GivesTwoStates starts_again }
{}
