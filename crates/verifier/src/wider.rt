//! A more precise domain accepts no fewer programs.
ghost use Rattle.std.specs.Prelude.{List};
ghost use Rattle.instruction_set.specs.Slots.{IsCode};
ghost use Rattle.instruction_set.specs.declared.insn.Insn.{Insn};
ghost use Rattle.abstract_value.specs.Boths.{both_ops};
ghost use Rattle.abstract_value.specs.Ranges.{interval_ops};
ghost use Rattle.verifier.specs.Assignments.{IsTypable};

/// States that adding signed ranges never rejects code that unsigned ranges accept. Does nothing at run time.
pub fn wider_theorem()
    ensures { (code : List Insn) → IsCode code → IsTypable interval_ops code → IsTypable both_ops code }
{}
