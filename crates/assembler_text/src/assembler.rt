//! Assembles text.
ghost use Rattle.std.specs.Prelude.{◌≡◌, ◌⊎◌, ℕ, List, Option, Some, Ok, Err, IfOk, IfErr, OnOk, drop};
ghost use Rattle.refusals.specs.Answers.{HasCause, ReturnsOrRunsOut};
ghost use Rattle.instruction_set.specs.Slots.{IsListed, IsCode};
ghost use Rattle.instruction_set.specs.declared.insn.Insn.{Insn};
ghost use Rattle.instruction_set.specs.Machine.{slots_of};
ghost use Rattle.assembler_text.specs.declared.faults.Fault.{Fault};
ghost use Rattle.assembler_text.specs.declared.faults.LineFault.{LineFault};
ghost use Rattle.assembler_text.specs.Text.{text_of, code_text};
ghost use Rattle.assembler_text.specs.Grammar.{lines_of, IsLine, IsTextOf};
ghost use Rattle.assembler_text.specs.Refusals.{IsLineFault, IsFirstTextFault};
ghost use Rattle.assembler_text.specs.Faults.{line_fault_number};
ghost use Rattle.assembler_text.specs.model.Lines.{line_at};
ghost use Rattle.assembler_text.specs.model.Texts.{with_line, code_of, FailsWith};

use crate::faults::LineFault;
use crate::lexer::{Class, split};
use crate::line::read;
use instruction_set::{Code, CodeBuilder, Insn, MAX_SLOTS};
use std::alloc::Global;

// Appends the instruction of a line, if any.
fn add(builder: &mut CodeBuilder, text: &[u8], line: usize) -> Result<(), LineFault>
    ensures ok { OnOk result (with_line line builder.old (line_at text.now) ≡ Ok builder.new) }
    ensures err { IfErr result (HasCause line_fault_number (FailsWith (with_line line builder.old (line_at text.now)))) }
{
    let found = match read(text) {
        Ok(found) => found,
        Err(fault) => return Err(LineFault::Line { fault, line }),
    };
    let Some(insn) = found else {
        return Ok(());
    };
    if builder.slot_count() + insn.slots() > MAX_SLOTS {
        return Err(LineFault::TooLong { line });
    }
    match builder.push(insn) {
        Ok(()) => Ok(()),
        Err(_) => Err(LineFault::OutOfMemory),
    }
}

// Returns the text after its leading LF.
fn after_newline(text: &[u8]) -> &[u8]
    ensures { result.now ≡ drop 1 text.now }
{
    match text {
        [_, rest @ ..] => rest,
        [] => text,
    }
}

// Reads the lines in order as code, or returns the first faulty line with its leftmost fault.
fn read_lines(alloc: Global, text: &str) -> Result<Code, LineFault>
    ensures { ReturnsOrRunsOut line_fault_number result (code_of (lines_of text.now)) }
{
    let len = text.len();
    let Ok(mut builder) = CodeBuilder::with_capacity(alloc, MAX_SLOTS.min(len)) else {
        return Err(LineFault::OutOfMemory);
    };
    let mut text = text.as_bytes();
    let mut line = 0;
    while !text.is_empty() {
        line += 1;
        let (front, rest) = split(Class::Line, text);
        add(&mut builder, front, line)?;
        text = after_newline(rest);
    }
    if builder.slot_count() == 0 {
        return Err(LineFault::Empty);
    }
    Ok(builder.build())
}

/// Assembles a text.
///
/// Rejects the first faulty line with its leftmost fault (60 to 63, with the line), a text without an instruction (1, at
/// line 1) and one of more than 1,024 slots (2, at the line that exceeds them). Returns 90 when out of memory: it
/// allocates the code's slots.
pub fn assemble(alloc: Global, text: &str) -> Result<Code, LineFault>
    ensures read { IfOk result (IsTextOf text.now) }
    // A text of code is assembled, unless memory runs out.
    ensures complete { (code : List Insn) → IsTextOf text.now code → ReturnsOrRunsOut line_fault_number result (Ok code) }
    ensures refused { IfErr result (HasCause line_fault_number (IsFirstTextFault text.now)) }
    // The first fault is returned, unless memory runs out.
    ensures reported { (fault : LineFault) → IsFirstTextFault text.now fault
        → ReturnsOrRunsOut line_fault_number result (Err fault) }
{
    read_lines(alloc, text)
}

/// States that a line gives exactly one instruction, or none, or has exactly one leftmost fault. Does nothing at run
/// time.
pub fn line_theorem()
    ensures some { (line : List ℕ) → ((insn : Option Insn) × IsLine line insn) ⊎ ((f : Fault) × IsLineFault line f) }
    ensures either { (line : List ℕ) (insn : Option Insn) (f : Fault) → IsLine line insn → IsLineFault line f → ⊥ }
    ensures one_insn { (line : List ℕ) (a b : Option Insn) → IsLine line a → IsLine line b → a ≡ b }
    ensures one_fault { (line : List ℕ) (f g : Fault) → IsLineFault line f → IsLineFault line g → f ≡ g }
    // The canonical text of an instruction is a line that gives it.
    ensures written { (insn : Insn) → IsListed insn → IsLine (text_of insn) (Some insn) }
{}

/// States that a text either is the text of exactly one code or has exactly one first fault. Does nothing at run time.
pub fn text_theorem()
    ensures some { (text : List ℕ) → ((code : List Insn) × IsTextOf text code)
        ⊎ ((f : LineFault) × IsFirstTextFault text f) }
    ensures either { (text : List ℕ) (code : List Insn) (f : LineFault)
        → IsTextOf text code → IsFirstTextFault text f → ⊥ }
    ensures one_code { (text : List ℕ) (a b : List Insn) → IsTextOf text a → IsTextOf text b → a ≡ b }
    ensures one_fault { (text : List ℕ) (f g : LineFault) → IsFirstTextFault text f → IsFirstTextFault text g → f ≡ g }
    // The canonical text of code is a text of it.
    ensures written { (code : List Insn) → IsCode code → IsTextOf (code_text code) code }
{}
