//! Bytes spell one entry or one snapshot, or have one fault.
ghost use Rattle.std.specs.Prelude.{◌≡◌, ℕ, List};
ghost use Rattle.replica.specs.declared.messages.Entry.{Entry};
ghost use Rattle.replica_codec.specs.declared.fault.ReplicaMessageFault.{ReplicaMessageFault};
ghost use Rattle.replica_law.specs.Groups as law;
ghost use Rattle.replica.specs.Halves as halves;
ghost use Rattle.replica_codec.specs.Entries.{SpellsEntry, IsEntryFault};
ghost use Rattle.replica_codec.specs.Snapshots.{SpellsSnapshot, IsSnapshotFault};

use exchange_codec::{one_program_theorem, one_table_theorem};

/// States that bytes spell at most one entry, that bytes that spell one have no fault, that bytes have at most one fault, and
/// that an entry has one spelling. Does nothing at run time.
pub fn one_entry_theorem()
    ensures entries { (bytes : List ℕ) → (e f : Entry) → SpellsEntry bytes e → SpellsEntry bytes f → e ≡ f }
    ensures either { (bytes : List ℕ) → (e : Entry) → (f : ReplicaMessageFault) → SpellsEntry bytes e
        → IsEntryFault bytes f → ⊥ }
    ensures one_fault { (bytes : List ℕ) → (f g : ReplicaMessageFault) → IsEntryFault bytes f → IsEntryFault bytes g
        → f ≡ g }
    ensures one_spelling { (bytes other : List ℕ) → (e : Entry) → SpellsEntry bytes e → SpellsEntry other e
        → bytes ≡ other }
{
    // For the proof: code has one reading and one verdict.
    one_program_theorem();
}

/// States the same of snapshots. Does nothing at run time.
pub fn one_snapshot_theorem()
    ensures snapshots { (bytes : List ℕ) → (s t : law.Snapshot halves.HalfState) → SpellsSnapshot bytes s
        → SpellsSnapshot bytes t → s ≡ t }
    ensures either { (bytes : List ℕ) → (s : law.Snapshot halves.HalfState) → (f : ReplicaMessageFault)
        → SpellsSnapshot bytes s → IsSnapshotFault bytes f → ⊥ }
    ensures one_fault { (bytes : List ℕ) → (f g : ReplicaMessageFault) → IsSnapshotFault bytes f
        → IsSnapshotFault bytes g → f ≡ g }
    ensures one_spelling { (bytes other : List ℕ) → (s : law.Snapshot halves.HalfState) → SpellsSnapshot bytes s
        → SpellsSnapshot other s → bytes ≡ other }
{
    // For the proof: code has one reading and one verdict, and bytes spell one table.
    one_program_theorem();
    one_table_theorem();
}
