//! The forms of instructions: the rows of the opcode table (RFC 9669, sections 4 and 5).
ghost use Rattle.std.specs.Prelude.{◌≡◌};
ghost use Rattle.instruction_set.specs.Forms.{form_at, alu_form_at, jump_form_at, alu_op_at, end_at, mov_sx_at, test_at, size_at, load_at, memory_form_at, form_roles, insn_of, source_of};
ghost use Rattle.instruction_set.specs.declared.insn.Width.{Width};
ghost use Rattle.instruction_set.specs.declared.form.Form.TheVariants.{Alu as AluForm};

use crate::codes;
use crate::insn::{AluOp, EndKind, Insn, Register, Size, Source, Test, Width};
use crate::slots::{Role, Roles};

/// The kind of the second operand of an operation or a test.
#[derive(Clone, Copy, Debug, PartialEq, Eq)]
pub enum SourceKind {
    /// The immediate.
    Imm,
    /// A register.
    Reg,
}

/// An instruction without its operands.
#[derive(Clone, Copy, Debug, PartialEq, Eq)]
pub enum Form {
    /// An operation on two operands.
    Alu {
        width: Width,
        op: AluOp,
        source: SourceKind,
    },
    /// A negation.
    Neg {
        width: Width,
    },
    /// A move that extends the sign.
    MovSx {
        width: Width,
        bits: u32,
    },
    /// A byte swap.
    End {
        kind: EndKind,
        bits: u32,
    },
    /// A wide load.
    LoadWide,
    /// A load that extends by zeros.
    Load {
        size: Size,
    },
    /// A load that extends the sign.
    LoadSx {
        size: Size,
    },
    /// A store of a register.
    Store {
        size: Size,
    },
    /// A store of a number.
    StoreImm {
        size: Size,
    },
    /// A jump.
    Jump,
    /// A jump of 32 bits.
    JumpLong,
    /// A jump that tests two operands.
    JumpIf {
        width: Width,
        test: Test,
        source: SourceKind,
    },
    /// The end of the program.
    Exit,
}

impl Form {
    /// Returns the form that an opcode and the selecting fields name, or `None` if the table has no such row.
    pub fn of(opcode: u8, src: u8, offset: u16, imm: u32) -> Option<Form>
        ensures { result ≡ form_at opcode src offset imm }
    {
        let code = opcode / 16;
        let source = if opcode / 8 % 2 == 0 {
            SourceKind::Imm
        } else {
            SourceKind::Reg
        };
        match opcode % 8 {
            codes::ALU => alu_form(Width::W32, source, code, offset, imm),
            codes::ALU64 => alu_form(Width::W64, source, code, offset, imm),
            codes::JMP => jump_form(Width::W64, source, code),
            codes::JMP32 => jump_form(Width::W32, source, code),
            class => memory_form(class, opcode / 32, opcode / 8 % 4, src),
        }
    }

    /// Returns what this form does with each field.
    pub fn roles(self) -> Roles
        ensures { result ≡ form_roles self }
    {
        let (dst, src, offset, imm) = match self {
            Form::Alu { op, source, .. } => return alu_roles(op, source),
            Form::Neg { .. } => (Role::Operand, Role::Unused, Role::Unused, Role::Unused),
            Form::MovSx { .. } => (Role::Operand, Role::Operand, Role::Selects, Role::Unused),
            Form::End { .. } => (Role::Operand, Role::Unused, Role::Unused, Role::Selects),
            Form::LoadWide => (Role::Operand, Role::Selects, Role::Unused, Role::Operand),
            Form::Load { .. } | Form::LoadSx { .. } | Form::Store { .. } => {
                (Role::Operand, Role::Operand, Role::Operand, Role::Unused)
            }
            Form::StoreImm { .. } => (Role::Operand, Role::Unused, Role::Operand, Role::Operand),
            Form::Jump => (Role::Unused, Role::Unused, Role::Operand, Role::Unused),
            Form::JumpLong => (Role::Unused, Role::Unused, Role::Unused, Role::Operand),
            Form::JumpIf {
                source: SourceKind::Imm,
                ..
            } => (Role::Operand, Role::Unused, Role::Operand, Role::Operand),
            Form::JumpIf {
                source: SourceKind::Reg,
                ..
            } => (Role::Operand, Role::Operand, Role::Operand, Role::Unused),
            Form::Exit => (Role::Unused, Role::Unused, Role::Unused, Role::Unused),
        };
        Roles {
            dst,
            src,
            offset,
            imm,
        }
    }

    /// Builds the instruction of this form with these operands; `high` is the high half of a wide load's value.
    pub fn insn(self, dst: Register, src: Register, offset: u16, imm: u32, high: u32) -> Insn
        ensures { result ≡ insn_of self dst src offset imm high }
    {
        let distance = offset.cast_signed();
        let number = imm.cast_signed();
        match self {
            Form::Alu { width, op, source } => Insn::Alu {
                width,
                op,
                dst,
                src: source.operand(src, number),
            },
            Form::Neg { width } => Insn::Neg { width, dst },
            Form::MovSx { width, bits } => Insn::MovSx {
                width,
                bits,
                dst,
                src,
            },
            Form::End { kind, bits } => Insn::End { kind, bits, dst },
            Form::LoadWide => Insn::LoadWide {
                dst,
                value: u64::from(imm) + (u64::from(high) << 32),
            },
            Form::Load { size } => Insn::Load {
                size,
                dst,
                base: src,
                offset: distance,
            },
            Form::LoadSx { size } => Insn::LoadSx {
                size,
                dst,
                base: src,
                offset: distance,
            },
            Form::Store { size } => Insn::Store {
                size,
                base: dst,
                offset: distance,
                src,
            },
            Form::StoreImm { size } => Insn::StoreImm {
                size,
                base: dst,
                offset: distance,
                imm: number,
            },
            Form::Jump => Insn::Jump { distance },
            Form::JumpLong => Insn::JumpLong { distance: number },
            Form::JumpIf {
                width,
                test,
                source,
            } => Insn::JumpIf {
                width,
                test,
                dst,
                src: source.operand(src, number),
                distance,
            },
            Form::Exit => Insn::Exit,
        }
    }
}

impl SourceKind {
    // Returns the operand of this kind.
    fn operand(self, register: Register, number: i32) -> Source
        ensures { result ≡ source_of self register number }
    {
        match self {
            SourceKind::Imm => Source::Imm(number),
            SourceKind::Reg => Source::Reg(register),
        }
    }
}

fn alu_roles(op: AluOp, source: SourceKind) -> Roles
    ensures { (width : Width) → result ≡ form_roles (AluForm width op source) }
{
    let offset = match (op, source) {
        (AluOp::Div | AluOp::SDiv | AluOp::Mod | AluOp::SMod, _) => Role::Selects,
        (AluOp::Mov, SourceKind::Reg) => Role::Selects,
        _ => Role::Unused,
    };
    let (src, imm) = match source {
        SourceKind::Imm => (Role::Unused, Role::Operand),
        SourceKind::Reg => (Role::Operand, Role::Unused),
    };
    Roles {
        dst: Role::Operand,
        src,
        offset,
        imm,
    }
}

fn alu_form(width: Width, source: SourceKind, code: u8, offset: u16, imm: u32) -> Option<Form>
    ensures { result ≡ alu_form_at width source code offset imm }
{
    match (code, source) {
        (codes::NEG, SourceKind::Imm) => Some(Form::Neg { width }),
        (codes::NEG, SourceKind::Reg) => None,
        (codes::END, _) => end_form(width, source, imm),
        (codes::MOV, SourceKind::Reg) if offset != 0 => mov_sx_form(width, offset),
        _ => {
            let op = alu_op(code, offset)?;
            Some(Form::Alu { width, op, source })
        }
    }
}

fn end_form(width: Width, source: SourceKind, bits: u32) -> Option<Form>
    ensures { result ≡ end_at width source bits }
{
    if !matches!(bits, 16 | 32 | 64) {
        return None;
    }
    let kind = match (width, source) {
        (Width::W32, SourceKind::Imm) => EndKind::Little,
        (Width::W32, SourceKind::Reg) => EndKind::Big,
        (Width::W64, SourceKind::Imm) => EndKind::Swap,
        (Width::W64, SourceKind::Reg) => return None,
    };
    Some(Form::End { kind, bits })
}

fn mov_sx_form(width: Width, bits: u16) -> Option<Form>
    ensures { result ≡ mov_sx_at width bits }
{
    let bits = u32::from(bits);
    match (width, bits) {
        (_, 8 | 16) | (Width::W64, 32) => Some(Form::MovSx { width, bits }),
        _ => None,
    }
}

fn alu_op(code: u8, offset: u16) -> Option<AluOp>
    ensures { result ≡ alu_op_at code offset }
{
    match (code, offset) {
        (codes::ADD, _) => Some(AluOp::Add),
        (codes::SUB, _) => Some(AluOp::Sub),
        (codes::MUL, _) => Some(AluOp::Mul),
        (codes::DIV, 0) => Some(AluOp::Div),
        (codes::DIV, 1) => Some(AluOp::SDiv),
        (codes::OR, _) => Some(AluOp::Or),
        (codes::AND, _) => Some(AluOp::And),
        (codes::LSH, _) => Some(AluOp::Lsh),
        (codes::RSH, _) => Some(AluOp::Rsh),
        (codes::MOD, 0) => Some(AluOp::Mod),
        (codes::MOD, 1) => Some(AluOp::SMod),
        (codes::XOR, _) => Some(AluOp::Xor),
        (codes::MOV, _) => Some(AluOp::Mov),
        (codes::ARSH, _) => Some(AluOp::Arsh),
        _ => None,
    }
}

fn jump_form(width: Width, source: SourceKind, code: u8) -> Option<Form>
    ensures { result ≡ jump_form_at width source code }
{
    match (code, width, source) {
        (codes::JA, Width::W64, SourceKind::Imm) => Some(Form::Jump),
        (codes::JA, Width::W32, SourceKind::Imm) => Some(Form::JumpLong),
        (codes::EXIT, Width::W64, SourceKind::Imm) => Some(Form::Exit),
        (codes::JA | codes::EXIT, _, _) => None,
        _ => {
            let test = test_of(code)?;
            Some(Form::JumpIf {
                width,
                test,
                source,
            })
        }
    }
}

fn test_of(code: u8) -> Option<Test>
    ensures { result ≡ test_at code }
{
    match code {
        codes::JEQ => Some(Test::Jeq),
        codes::JGT => Some(Test::Jgt),
        codes::JGE => Some(Test::Jge),
        codes::JSET => Some(Test::Jset),
        codes::JNE => Some(Test::Jne),
        codes::JSGT => Some(Test::Jsgt),
        codes::JSGE => Some(Test::Jsge),
        codes::JLT => Some(Test::Jlt),
        codes::JLE => Some(Test::Jle),
        codes::JSLT => Some(Test::Jslt),
        codes::JSLE => Some(Test::Jsle),
        _ => None,
    }
}

fn memory_form(class: u8, mode: u8, size: u8, src: u8) -> Option<Form>
    ensures { result ≡ memory_form_at class mode size src }
{
    match (class, mode) {
        (codes::LD, codes::IMM) if size == codes::DOUBLE && src == 0 => Some(Form::LoadWide),
        (codes::LDX, codes::MEM) => Some(Form::Load {
            size: size_of(size),
        }),
        (codes::LDX, codes::MEMSX) if size != codes::DOUBLE => Some(Form::LoadSx {
            size: size_of(size),
        }),
        (codes::ST, codes::MEM) => Some(Form::StoreImm {
            size: size_of(size),
        }),
        (codes::STX, codes::MEM) => Some(Form::Store {
            size: size_of(size),
        }),
        _ => None,
    }
}

fn size_of(code: u8) -> Size
    ensures { result ≡ size_at code }
{
    match code {
        codes::WORD => Size::Word,
        codes::HALF => Size::Half,
        codes::BYTE => Size::Byte,
        _ => Size::Double,
    }
}
