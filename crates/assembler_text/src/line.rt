//! Parses a line as an instruction.
ghost use Rattle.std.specs.Prelude.{◌≡◌, IfOk, IfSome};
ghost use Rattle.instruction_set.specs.Slots.{IsSelected};
ghost use Rattle.assembler_text.specs.declared.mnemonic.Mnemonic.TheVariants as mnemonic;
ghost use Rattle.assembler_text.specs.model.Lines.{insn_at, line_at};

use crate::faults::Fault;
use crate::lexer::{Class, skip_blanks, split};
use crate::mnemonic::Mnemonic;
use crate::number::{imm, long_step, short_step, value};
use crate::operand::{address, comma, end, register, source, word};
use instruction_set::{AluOp, EndKind, Insn, Size, Test, Width};

// Parses an operation on a register and a register or an immediate.
#[tactic(auto, unfolding(crate::specs::model::Lines::insn_at, crate::specs::model::Lines::operands_at))]
fn alu(width: Width, op: AluOp, text: &[u8]) -> Result<Insn, Fault>
    ensures { result ≡ insn_at (mnemonic.Alu width op) text.now }
{
    let (dst, rest) = word(text);
    let dst = register(dst)?;
    let (src, rest) = word(comma(rest)?);
    let src = source(src)?;
    end(rest)?;
    Ok(Insn::Alu {
        width,
        op,
        dst,
        src,
    })
}

// Parses a negation of a register.
#[tactic(auto, unfolding(crate::specs::model::Lines::insn_at, crate::specs::model::Lines::operands_at))]
fn neg(width: Width, text: &[u8]) -> Result<Insn, Fault>
    ensures { result ≡ insn_at (mnemonic.Neg width) text.now }
{
    let (dst, rest) = word(text);
    let dst = register(dst)?;
    end(rest)?;
    Ok(Insn::Neg { width, dst })
}

// Parses a sign-extending move.
#[tactic(auto, unfolding(crate::specs::model::Lines::insn_at, crate::specs::model::Lines::operands_at))]
fn mov_sx(width: Width, bits: u32, text: &[u8]) -> Result<Insn, Fault>
    ensures { result ≡ insn_at (mnemonic.MovSx width bits) text.now }
{
    let (dst, rest) = word(text);
    let dst = register(dst)?;
    let (src, rest) = word(comma(rest)?);
    let src = register(src)?;
    end(rest)?;
    Ok(Insn::MovSx {
        width,
        bits,
        dst,
        src,
    })
}

// Parses a byte swap.
#[tactic(auto, unfolding(crate::specs::model::Lines::insn_at, crate::specs::model::Lines::operands_at))]
fn byte_order(kind: EndKind, bits: u32, text: &[u8]) -> Result<Insn, Fault>
    ensures { result ≡ insn_at (mnemonic.End kind bits) text.now }
{
    let (dst, rest) = word(text);
    let dst = register(dst)?;
    end(rest)?;
    Ok(Insn::End { kind, bits, dst })
}

// Parses a load of a 64-bit value.
#[tactic(auto, unfolding(crate::specs::model::Lines::insn_at, crate::specs::model::Lines::operands_at))]
fn load_wide(text: &[u8]) -> Result<Insn, Fault>
    ensures { result ≡ insn_at mnemonic.LoadWide text.now }
{
    let (dst, rest) = word(text);
    let dst = register(dst)?;
    let (number, rest) = word(comma(rest)?);
    let number = value(number)?;
    end(rest)?;
    Ok(Insn::LoadWide { dst, value: number })
}

// Parses a zero-extending load.
#[tactic(auto, unfolding(crate::specs::model::Lines::insn_at, crate::specs::model::Lines::operands_at))]
fn load(size: Size, text: &[u8]) -> Result<Insn, Fault>
    ensures { result ≡ insn_at (mnemonic.Load size) text.now }
{
    let (dst, rest) = word(text);
    let dst = register(dst)?;
    let (place, rest) = word(comma(rest)?);
    let (base, offset) = address(place)?;
    end(rest)?;
    Ok(Insn::Load {
        size,
        dst,
        base,
        offset,
    })
}

// Parses a sign-extending load.
#[tactic(auto, unfolding(crate::specs::model::Lines::insn_at, crate::specs::model::Lines::operands_at))]
fn load_sx(size: Size, text: &[u8]) -> Result<Insn, Fault>
    ensures { result ≡ insn_at (mnemonic.LoadSx size) text.now }
{
    let (dst, rest) = word(text);
    let dst = register(dst)?;
    let (place, rest) = word(comma(rest)?);
    let (base, offset) = address(place)?;
    end(rest)?;
    Ok(Insn::LoadSx {
        size,
        dst,
        base,
        offset,
    })
}

// Parses a store of a register.
#[tactic(auto, unfolding(crate::specs::model::Lines::insn_at, crate::specs::model::Lines::operands_at))]
fn store(size: Size, text: &[u8]) -> Result<Insn, Fault>
    ensures { result ≡ insn_at (mnemonic.Store size) text.now }
{
    let (place, rest) = word(text);
    let (base, offset) = address(place)?;
    let (src, rest) = word(comma(rest)?);
    let src = register(src)?;
    end(rest)?;
    Ok(Insn::Store {
        size,
        base,
        offset,
        src,
    })
}

// Parses a store of an immediate.
#[tactic(auto, unfolding(crate::specs::model::Lines::insn_at, crate::specs::model::Lines::operands_at))]
fn store_imm(size: Size, text: &[u8]) -> Result<Insn, Fault>
    ensures { result ≡ insn_at (mnemonic.StoreImm size) text.now }
{
    let (place, rest) = word(text);
    let (base, offset) = address(place)?;
    let (number, rest) = word(comma(rest)?);
    let number = imm(number)?;
    end(rest)?;
    Ok(Insn::StoreImm {
        size,
        base,
        offset,
        imm: number,
    })
}

// Parses a jump of 16 bits.
#[tactic(auto, unfolding(crate::specs::model::Lines::insn_at, crate::specs::model::Lines::operands_at))]
fn jump(text: &[u8]) -> Result<Insn, Fault>
    ensures { result ≡ insn_at mnemonic.Jump text.now }
{
    let (distance, rest) = word(text);
    let distance = short_step(distance)?;
    end(rest)?;
    Ok(Insn::Jump { distance })
}

// Parses a jump of 32 bits.
#[tactic(auto, unfolding(crate::specs::model::Lines::insn_at, crate::specs::model::Lines::operands_at))]
fn jump_long(text: &[u8]) -> Result<Insn, Fault>
    ensures { result ≡ insn_at mnemonic.JumpLong text.now }
{
    let (distance, rest) = word(text);
    let distance = long_step(distance)?;
    end(rest)?;
    Ok(Insn::JumpLong { distance })
}

// Parses a conditional jump.
#[tactic(auto, unfolding(crate::specs::model::Lines::insn_at, crate::specs::model::Lines::operands_at))]
fn jump_if(width: Width, test: Test, text: &[u8]) -> Result<Insn, Fault>
    ensures { result ≡ insn_at (mnemonic.JumpIf width test) text.now }
{
    let (dst, rest) = word(text);
    let dst = register(dst)?;
    let (src, rest) = word(comma(rest)?);
    let src = source(src)?;
    let (distance, rest) = word(comma(rest)?);
    let distance = short_step(distance)?;
    end(rest)?;
    Ok(Insn::JumpIf {
        width,
        test,
        dst,
        src,
        distance,
    })
}

// Parses an exit.
#[tactic(auto, unfolding(crate::specs::model::Lines::insn_at, crate::specs::model::Lines::operands_at))]
fn exit(text: &[u8]) -> Result<Insn, Fault>
    ensures { result ≡ insn_at mnemonic.Exit text.now }
{
    end(skip_blanks(text))?;
    Ok(Insn::Exit)
}

// Parses the operands of this mnemonic.
fn insn(mnemonic: Mnemonic, text: &[u8]) -> Result<Insn, Fault>
    ensures { result ≡ insn_at mnemonic text.now }
{
    match mnemonic {
        Mnemonic::Alu(width, op) => alu(width, op, text),
        Mnemonic::Neg(width) => neg(width, text),
        Mnemonic::MovSx(width, bits) => mov_sx(width, bits, text),
        Mnemonic::End(kind, bits) => byte_order(kind, bits, text),
        Mnemonic::LoadWide => load_wide(text),
        Mnemonic::Load(size) => load(size, text),
        Mnemonic::LoadSx(size) => load_sx(size, text),
        Mnemonic::Store(size) => store(size, text),
        Mnemonic::StoreImm(size) => store_imm(size, text),
        Mnemonic::Jump => jump(text),
        Mnemonic::JumpLong => jump_long(text),
        Mnemonic::JumpIf(width, test) => jump_if(width, test, text),
        Mnemonic::Exit => exit(text),
    }
}

// Parses a line as the model does.
#[tactic(auto, unfolding(crate::specs::model::Lines::line_at))]
fn line_insn(line: &[u8]) -> Result<Option<Insn>, Fault>
    ensures { result ≡ line_at line.now }
{
    let (instruction, _comment) = split(Class::Instruction, line);
    let body = skip_blanks(instruction);
    if body.is_empty() {
        return Ok(None);
    }
    let (name, operands) = split(Class::Mnemonic, body);
    let Some(mnemonic) = Mnemonic::of(name) else {
        return Err(Fault::Mnemonic);
    };
    Ok(Some(insn(mnemonic, operands)?))
}

/// Parses the instruction of a line, if any, or returns the leftmost fault in it.
pub fn read(line: &[u8]) -> Result<Option<Insn>, Fault>
    ensures value { result ≡ line_at line.now }
    ensures selected { IfOk result (λ insn. IfSome insn IsSelected) }
{
    line_insn(line)
}
