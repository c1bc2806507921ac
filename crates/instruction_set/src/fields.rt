//! The fields of an instruction's first slot (RFC 9669, sections 3 to 5).
ghost use Rattle.std.specs.Prelude.{◌≡◌, ◌<◌, ◌≤◌};
ghost use Rattle.std.specs.Int.{w16, cast_unsigned};
ghost use Rattle.instruction_set.specs.Slots as spelling;
ghost use Rattle.instruction_set.specs.Slots.{slot_of, IsListed};
ghost use Rattle.instruction_set.specs.declared.insn.EndKind.TheVariants.{Little, Big, Swap};
ghost use Rattle.instruction_set.specs.declared.insn.Insn.TheVariants.{Alu, JumpIf, End};

use crate::codes;
use crate::insn::{AluOp, EndKind, Insn, Register, Size, Source, Test, Width};
use crate::slots::Fields;

/// Returns the fields of an instruction's first slot.
pub fn fields_of(insn: Insn) -> Fields
    requires { IsListed insn }
    ensures fields { result ≡ slot_of insn }
    ensures registers { (result.dst ≤ 10) × (result.src ≤ 10) }
{
    match insn {
        Insn::Alu {
            width,
            op,
            dst,
            src,
        } => alu_fields(width, op, dst, src),
        Insn::Neg { width, dst } => Fields {
            opcode: with_code(alu_class(width), 0, codes::NEG),
            dst: dst.number,
            src: 0,
            offset: 0,
            imm: 0,
        },
        Insn::MovSx {
            width,
            bits,
            dst,
            src,
        } => Fields {
            opcode: with_code(alu_class(width), 1, codes::MOV),
            dst: dst.number,
            src: src.number,
            offset: bits as u16,
            imm: 0,
        },
        Insn::End { kind, bits, dst } => end_fields(kind, bits, dst),
        Insn::LoadWide { dst, value } => Fields {
            opcode: with_mode(codes::LD, Size::Double, codes::IMM),
            dst: dst.number,
            src: 0,
            offset: 0,
            imm: (value & 0xffff_ffff) as u32,
        },
        Insn::Load {
            size,
            dst,
            base,
            offset,
        } => memory_fields(with_mode(codes::LDX, size, codes::MEM), dst, base, offset),
        Insn::LoadSx {
            size,
            dst,
            base,
            offset,
        } => memory_fields(with_mode(codes::LDX, size, codes::MEMSX), dst, base, offset),
        Insn::Store {
            size,
            base,
            offset,
            src,
        } => memory_fields(with_mode(codes::STX, size, codes::MEM), base, src, offset),
        Insn::StoreImm {
            size,
            base,
            offset,
            imm,
        } => Fields {
            opcode: with_mode(codes::ST, size, codes::MEM),
            dst: base.number,
            src: 0,
            offset: offset.cast_unsigned(),
            imm: imm.cast_unsigned(),
        },
        Insn::Jump { distance } => Fields {
            opcode: with_code(codes::JMP, 0, codes::JA),
            dst: 0,
            src: 0,
            offset: distance.cast_unsigned(),
            imm: 0,
        },
        Insn::JumpLong { distance } => Fields {
            opcode: with_code(codes::JMP32, 0, codes::JA),
            dst: 0,
            src: 0,
            offset: 0,
            imm: distance.cast_unsigned(),
        },
        Insn::JumpIf {
            width,
            test,
            dst,
            src,
            distance,
        } => jump_fields(width, test, dst, src, distance),
        Insn::Exit => Fields {
            opcode: with_code(codes::JMP, 0, codes::EXIT),
            dst: 0,
            src: 0,
            offset: 0,
            imm: 0,
        },
    }
}

fn alu_fields(width: Width, op: AluOp, dst: Register, src: Source) -> Fields
    ensures fields { result ≡ slot_of (Alu width op dst src) }
    ensures registers { (result.dst ≤ 10) × (result.src ≤ 10) }
{
    let (source, register, imm) = source_fields(src);
    Fields {
        opcode: with_code(alu_class(width), source, alu_code(op)),
        dst: dst.number,
        src: register,
        offset: match op {
            AluOp::SDiv | AluOp::SMod => 1,
            _ => 0,
        },
        imm,
    }
}

fn jump_fields(width: Width, test: Test, dst: Register, src: Source, distance: i16) -> Fields
    ensures fields { result ≡ slot_of (JumpIf width test dst src distance) }
    ensures registers { (result.dst ≤ 10) × (result.src ≤ 10) }
{
    let (source, register, imm) = source_fields(src);
    Fields {
        opcode: with_code(jump_class(width), source, test_code(test)),
        dst: dst.number,
        src: register,
        offset: distance.cast_unsigned(),
        imm,
    }
}

fn memory_fields(opcode: u8, dst: Register, src: Register, offset: i16) -> Fields
    ensures fields { result ≡ record {
      opcode = opcode;
      dst = dst.number;
      src = src.number;
      offset =
          cast_unsigned w16 offset;
      imm = 0;
    } }
    ensures registers { (result.dst ≤ 10) × (result.src ≤ 10) }
{
    Fields {
        opcode,
        dst: dst.number,
        src: src.number,
        offset: offset.cast_unsigned(),
        imm: 0,
    }
}

// Returns the source bit, the register field and the immediate of a second operand.
fn source_fields(src: Source) -> (u8, u8, u32)
    ensures bit { (result.0 ≡ spelling.source_bit src) × (result.0 < 2) }
    ensures register { (result.1 ≡ spelling.source_register src) × (result.1 ≤ 10) }
    ensures imm { result.2 ≡ spelling.source_imm src }
{
    match src {
        Source::Imm(number) => (0, 0, number.cast_unsigned()),
        Source::Reg(register) => (1, register.number, 0),
    }
}

fn with_code(class: u8, source: u8, code: u8) -> u8
    requires { (class < 8) × (source < 2) × (code < 16) }
    ensures { result ≡ spelling.with_code class source code }
{
    class + 8 * source + 16 * code
}

fn with_mode(class: u8, size: Size, mode: u8) -> u8
    requires { (class < 8) × (mode < 8) }
    ensures { result ≡ spelling.with_mode class size mode }
{
    let code = match size {
        Size::Word => codes::WORD,
        Size::Half => codes::HALF,
        Size::Byte => codes::BYTE,
        Size::Double => codes::DOUBLE,
    };
    class + 8 * code + 32 * mode
}

fn alu_class(width: Width) -> u8
    ensures class { result ≡ spelling.alu_class width }
    ensures small { result < 8 }
{
    match width {
        Width::W32 => codes::ALU,
        Width::W64 => codes::ALU64,
    }
}

fn jump_class(width: Width) -> u8
    ensures class { result ≡ spelling.jump_class width }
    ensures small { result < 8 }
{
    match width {
        Width::W32 => codes::JMP32,
        Width::W64 => codes::JMP,
    }
}

fn end_fields(kind: EndKind, bits: u32, dst: Register) -> Fields
    ensures fields { result ≡ slot_of (End kind bits dst) }
    ensures registers { (result.dst ≤ 10) × (result.src ≤ 10) }
{
    let (class, source) = match kind {
        EndKind::Little => (codes::ALU, 0),
        EndKind::Big => (codes::ALU, 1),
        EndKind::Swap => (codes::ALU64, 0),
    };
    Fields {
        opcode: with_code(class, source, codes::END),
        dst: dst.number,
        src: 0,
        offset: 0,
        imm: bits,
    }
}

fn alu_code(op: AluOp) -> u8
    ensures code { result ≡ spelling.alu_code op }
    ensures small { result < 16 }
{
    match op {
        AluOp::Add => codes::ADD,
        AluOp::Sub => codes::SUB,
        AluOp::Mul => codes::MUL,
        AluOp::Div | AluOp::SDiv => codes::DIV,
        AluOp::Or => codes::OR,
        AluOp::And => codes::AND,
        AluOp::Lsh => codes::LSH,
        AluOp::Rsh => codes::RSH,
        AluOp::Mod | AluOp::SMod => codes::MOD,
        AluOp::Xor => codes::XOR,
        AluOp::Mov => codes::MOV,
        AluOp::Arsh => codes::ARSH,
    }
}

fn test_code(test: Test) -> u8
    ensures code { result ≡ spelling.test_code test }
    ensures small { result < 16 }
{
    match test {
        Test::Jeq => codes::JEQ,
        Test::Jgt => codes::JGT,
        Test::Jge => codes::JGE,
        Test::Jset => codes::JSET,
        Test::Jne => codes::JNE,
        Test::Jsgt => codes::JSGT,
        Test::Jsge => codes::JSGE,
        Test::Jlt => codes::JLT,
        Test::Jle => codes::JLE,
        Test::Jslt => codes::JSLT,
        Test::Jsle => codes::JSLE,
    }
}
