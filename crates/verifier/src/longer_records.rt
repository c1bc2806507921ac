//! Code that was verified for shorter contexts.
ghost use Rattle.std.specs.Prelude.{ℕ, ◌≤◌, List};
ghost use Rattle.instruction_set.specs.declared.insn.Insn.{Insn};
ghost use Rattle.instruction_set.specs.Machine.{IsRecord, IsRecordOf};
ghost use Rattle.instruction_set.specs.Slots.{IsCode};
ghost use Rattle.verifier.specs.Structure.{IsStructured};
ghost use Rattle.verifier.specs.Assignments.{IsTypable, IsTypableFor};
ghost use Rattle.verifier.specs.LongerRecords.{shorter_len, EndsAlike, EndsAlikeFor};

use abstract_value::Domain;

/// Bytes of a clash record before it gained the sizes and the uptimes of the halves.
pub const SHORTER_RECORD_LEN: usize = 128;

/// States that code accepted for contexts of a length is accepted for longer contexts, with the same results. Does nothing at
/// run time.
pub fn longer_context_theorem<D: Domain>()
    // Code that fulfils the rules for a length fulfils them for a longer one.
    ensures typable { (short long : ℕ) (code : List Insn) → short ≤ long → IsTypableFor short D.ops code
        → IsTypableFor long D.ops code }
    // On each context it ends with the same value in the same number of steps as on its front of the shorter length.
    ensures alike { (short long : ℕ) (code : List Insn) (bytes : List ℕ) → short ≤ long → IsCode code
        → IsStructured code → IsTypableFor short D.ops code → IsRecordOf long bytes → EndsAlikeFor short long code bytes }
{}

/// States that code accepted for records of 128 bytes is accepted for records of 160 bytes, with the same results: the law
/// of longer contexts at these lengths. Does nothing at run time.
pub fn longer_record_theorem<D: Domain>()
    // Code that fulfils the rules for the shorter record fulfils them for the longer one.
    ensures typable { (code : List Insn) → IsTypableFor shorter_len D.ops code → IsTypable D.ops code }
    // On each record it ends with the same value in the same number of steps as on its first 128 bytes.
    ensures alike { (code : List Insn) (bytes : List ℕ) → IsCode code → IsStructured code
        → IsTypableFor shorter_len D.ops code → IsRecord bytes → EndsAlike code bytes }
{}
