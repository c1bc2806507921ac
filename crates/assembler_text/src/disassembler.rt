//! Disassembles code.
ghost use Rattle.std.specs.Prelude.{◌≡◌, IfOk, Some, drop};
ghost use Rattle.std.specs.String.{string_bytes};
ghost use Rattle.assembler_text.specs.Text.{alu_name, width_name, size_name, order_name, test_name, test_width_name, mnemonic_of, source_text, step_text, OfAddress, operands_of, operand_text, first_text, others_text, text_of, code_text};
ghost use Rattle.assembler_text.specs.Grammar.{IsTextOf};

use instruction_set::{AluOp, Code, EndKind, Insn, Register, Size, Source, Test, Width};
use std::alloc::{AllocError, Global};
use std::fmt::{self, Display, Formatter, Write};

fn alu_name(op: AluOp) -> &'static str
    ensures { result.now ≡ alu_name op }
{
    match op {
        AluOp::Add => "add",
        AluOp::Sub => "sub",
        AluOp::Mul => "mul",
        AluOp::Div => "div",
        AluOp::SDiv => "sdiv",
        AluOp::Or => "or",
        AluOp::And => "and",
        AluOp::Lsh => "lsh",
        AluOp::Rsh => "rsh",
        AluOp::Mod => "mod",
        AluOp::SMod => "smod",
        AluOp::Xor => "xor",
        AluOp::Mov => "mov",
        AluOp::Arsh => "arsh",
    }
}

fn width_name(width: Width) -> &'static str
    ensures { result.now ≡ width_name width }
{
    match width {
        Width::W32 => "32",
        Width::W64 => "64",
    }
}

fn size_name(size: Size) -> &'static str
    ensures { result.now ≡ size_name size }
{
    match size {
        Size::Byte => "b",
        Size::Half => "h",
        Size::Word => "w",
        Size::Double => "dw",
    }
}

fn order_name(kind: EndKind) -> &'static str
    ensures { result.now ≡ order_name kind }
{
    match kind {
        EndKind::Little => "le",
        EndKind::Big => "be",
        EndKind::Swap => "swap",
    }
}

fn test_name(test: Test) -> &'static str
    ensures { result.now ≡ test_name test }
{
    match test {
        Test::Jeq => "jeq",
        Test::Jgt => "jgt",
        Test::Jge => "jge",
        Test::Jset => "jset",
        Test::Jne => "jne",
        Test::Jsgt => "jsgt",
        Test::Jsge => "jsge",
        Test::Jlt => "jlt",
        Test::Jle => "jle",
        Test::Jslt => "jslt",
        Test::Jsle => "jsle",
    }
}

// A test of 64 bits has no width in its name.
fn test_width_name(width: Width) -> &'static str
    ensures { result.now ≡ test_width_name width }
{
    match width {
        Width::W32 => "32",
        Width::W64 => "",
    }
}

// A second operand.
#[derive(Clone, Copy)]
struct SourceText(Source);

impl Display for SourceText {
    ghost output = { λ text. Some (source_text text.0) };

    fn fmt<W: Write>(&self, f: &mut Formatter<W>) -> fmt::Result {
        match self.0 {
            Source::Imm(number) => write!(f, "{number}"),
            Source::Reg(register) => write!(f, "r{}", register.number),
        }
    }
}

// A number with its sign.
#[derive(Clone, Copy)]
struct Step(i32);

impl Display for Step {
    ghost output = { λ step. Some (step_text step.0) };

    fn fmt<W: Write>(&self, f: &mut Formatter<W>) -> fmt::Result {
        let number = self.0;
        if number < 0 {
            write!(f, "{number}")
        } else {
            write!(f, "+{number}")
        }
    }
}

// A register and an offset in brackets.
#[derive(Clone, Copy)]
struct Address(Register, i16);

impl Display for Address {
    ghost output = { λ address. Some (operand_text (OfAddress address.0 address.1)) };

    fn fmt<W: Write>(&self, f: &mut Formatter<W>) -> fmt::Result {
        write!(f, "[r{}{}]", self.0.number, Step(i32::from(self.1)))
    }
}

// The mnemonic of an instruction.
#[derive(Clone, Copy)]
struct MnemonicText(Insn);

impl Display for MnemonicText {
    ghost output = { λ text. Some (mnemonic_of text.0) };

    fn fmt<W: Write>(&self, f: &mut Formatter<W>) -> fmt::Result {
        match self.0 {
            Insn::Alu { width, op, .. } => write!(f, "{}{}", alu_name(op), width_name(width)),
            Insn::Neg { width, .. } => write!(f, "neg{}", width_name(width)),
            Insn::MovSx { width, bits, .. } => write!(f, "mov{}s{bits}", width_name(width)),
            Insn::End { kind, bits, .. } => write!(f, "{}{bits}", order_name(kind)),
            Insn::LoadWide { .. } => write!(f, "lddw"),
            Insn::Load { size, .. } => write!(f, "ldx{}", size_name(size)),
            Insn::LoadSx { size, .. } => write!(f, "ldxs{}", size_name(size)),
            Insn::Store { size, .. } => write!(f, "stx{}", size_name(size)),
            Insn::StoreImm { size, .. } => write!(f, "st{}", size_name(size)),
            Insn::Jump { .. } => write!(f, "ja"),
            Insn::JumpLong { .. } => write!(f, "jal"),
            Insn::JumpIf { width, test, .. } => {
                write!(f, "{}{}", test_name(test), test_width_name(width))
            }
            Insn::Exit => write!(f, "exit"),
        }
    }
}

// The first operand of an instruction after a space, if any.
#[derive(Clone, Copy)]
struct FirstOperand(Insn);

impl Display for FirstOperand {
    ghost output = { λ first. Some (first_text (operands_of first.0)) };

    fn fmt<W: Write>(&self, f: &mut Formatter<W>) -> fmt::Result {
        match self.0 {
            Insn::Alu { dst, .. }
            | Insn::Neg { dst, .. }
            | Insn::MovSx { dst, .. }
            | Insn::End { dst, .. }
            | Insn::LoadWide { dst, .. }
            | Insn::Load { dst, .. }
            | Insn::LoadSx { dst, .. }
            | Insn::JumpIf { dst, .. } => write!(f, " r{}", dst.number),
            Insn::Store { base, offset, .. } => write!(f, " {}", Address(base, offset)),
            Insn::StoreImm { base, offset, .. } => write!(f, " {}", Address(base, offset)),
            Insn::Jump { distance } => write!(f, " {}", Step(i32::from(distance))),
            Insn::JumpLong { distance } => write!(f, " {}", Step(distance)),
            Insn::Exit => Ok(()),
        }
    }
}

// The operands of an instruction after its first, each after a comma and a space.
#[derive(Clone, Copy)]
struct OtherOperands(Insn);

impl Display for OtherOperands {
    ghost output = { λ others. Some (others_text (drop 1 (operands_of others.0))) };

    fn fmt<W: Write>(&self, f: &mut Formatter<W>) -> fmt::Result {
        match self.0 {
            Insn::Neg { .. }
            | Insn::End { .. }
            | Insn::Jump { .. }
            | Insn::JumpLong { .. }
            | Insn::Exit => Ok(()),
            Insn::Alu { src, .. } => write!(f, ", {}", SourceText(src)),
            Insn::MovSx { src, .. } | Insn::Store { src, .. } => write!(f, ", r{}", src.number),
            Insn::LoadWide { value, .. } => write!(f, ", {value}"),
            Insn::Load { base, offset, .. } => write!(f, ", {}", Address(base, offset)),
            Insn::LoadSx { base, offset, .. } => write!(f, ", {}", Address(base, offset)),
            Insn::StoreImm { imm, .. } => write!(f, ", {imm}"),
            Insn::JumpIf { src, distance, .. } => {
                write!(f, ", {}, {}", SourceText(src), Step(i32::from(distance)))
            }
        }
    }
}

/// Displays an instruction as its canonical text, without the end of the line.
#[derive(Clone, Copy, Debug, PartialEq, Eq)]
pub struct Listing(pub Insn);

impl Display for Listing {
    ghost output = { λ listing. Some (text_of listing.0) };

    #[tactic(auto, using(crate::proofs::Canonical::first_and_others), unfolding(crate::specs::Text::text_of))]
    fn fmt<W: Write>(&self, f: &mut Formatter<W>) -> fmt::Result {
        write!(
            f,
            "{}{}{}",
            MnemonicText(self.0),
            FirstOperand(self.0),
            OtherOperands(self.0)
        )
    }
}

// Returns the lines of these instructions in order.
fn lines(alloc: Global, insns: &[Insn]) -> Result<String, AllocError>
    ensures { IfOk result (λ text. string_bytes text ≡ code_text insns.now) }
{
    let mut text = String::new(alloc);
    for insn in insns {
        writeln!(text, "{}", Listing(*insn))?;
    }
    Ok(text)
}

/// Disassembles code: the canonical line of each instruction, ended by LF. Fails only when out of memory.
pub fn disassemble(alloc: Global, code: &Code) -> Result<String, AllocError>
    ensures exact { IfOk result (λ text. string_bytes text ≡ code_text code.now) }
    // The text assembles to the code.
    ensures text { IfOk result (λ text. IsTextOf (string_bytes text) code.now) }
{
    // For the proof: its instructions are listed.
    code.known();
    lines(alloc, code.insns())
}
