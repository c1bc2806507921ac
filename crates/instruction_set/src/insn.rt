//! The instructions of RFC 9669, groups base32, base64, divmul32 and divmul64.
ghost use Rattle.std.specs.Prelude.{◌≤◌};

/// The number of low bits that an operation works on.
#[derive(Clone, Copy, Debug, PartialEq, Eq)]
pub enum Width {
    /// The low 32 bits: classes ALU and JMP32.
    W32,
    /// All 64 bits: classes ALU64 and JMP.
    W64,
}

/// The number of bytes that a load or a store moves (RFC 9669, section 5).
#[derive(Clone, Copy, Debug, PartialEq, Eq)]
pub enum Size {
    /// One byte.
    Byte,
    /// Two bytes.
    Half,
    /// Four bytes.
    Word,
    /// Eight bytes.
    Double,
}

/// The operations on two operands (RFC 9669, section 4.1).
#[derive(Clone, Copy, Debug, PartialEq, Eq)]
pub enum AluOp {
    /// The sum.
    Add,
    /// The difference.
    Sub,
    /// The product.
    Mul,
    /// The quotient of unsigned numbers; 0 by zero.
    Div,
    /// The quotient of signed numbers, truncated toward zero; 0 by zero.
    SDiv,
    /// The bitwise or.
    Or,
    /// The bitwise and.
    And,
    /// A shift to the left.
    Lsh,
    /// A shift to the right that fills with zeros.
    Rsh,
    /// The remainder of unsigned numbers; the destination by zero.
    Mod,
    /// The remainder of signed numbers; the destination by zero.
    SMod,
    /// The bitwise exclusive or.
    Xor,
    /// The second operand.
    Mov,
    /// A shift to the right that fills with the sign.
    Arsh,
}

/// The byte order that a byte swap gives the bytes of its width (RFC 9669, section 4.2).
#[derive(Clone, Copy, Debug, PartialEq, Eq)]
pub enum EndKind {
    /// Little-endian, the machine's own order.
    Little,
    /// Big-endian.
    Big,
    /// The opposite of the current order.
    Swap,
}

/// The tests of two words (RFC 9669, section 4.3).
#[derive(Clone, Copy, Debug, PartialEq, Eq)]
pub enum Test {
    /// Equal.
    Jeq,
    /// Greater, unsigned.
    Jgt,
    /// Greater or equal, unsigned.
    Jge,
    /// The bitwise and isn't zero.
    Jset,
    /// Not equal.
    Jne,
    /// Greater, signed.
    Jsgt,
    /// Greater or equal, signed.
    Jsge,
    /// Less, unsigned.
    Jlt,
    /// Less or equal, unsigned.
    Jle,
    /// Less, signed.
    Jslt,
    /// Less or equal, signed.
    Jsle,
}

/// One of the registers R0 to R10.
#[derive(Clone, Copy, Debug, PartialEq, Eq)]
pub struct Register {
    /// 0 for R0, and so on.
    pub number: u8,
    ghost in_range: { number ≤ 10 },
}

/// The second operand of an operation or a test.
#[derive(Clone, Copy, Debug, PartialEq, Eq)]
pub enum Source {
    /// An immediate, sign-extended for 64 bits.
    Imm(i32),
    /// A register.
    Reg(Register),
}

/// One instruction.
#[derive(Clone, Copy, Debug, PartialEq, Eq)]
pub enum Insn {
    /// `dst = dst op src` (section 4.1).
    Alu {
        width: Width,
        op: AluOp,
        dst: Register,
        src: Source,
    },
    /// `dst = -dst` (section 4.1).
    Neg {
        width: Width,
        dst: Register,
    },
    /// `dst = src`, sign-extended from the low 8, 16 or, at 64 bits, 32 bits (section 4.1).
    MovSx {
        width: Width,
        bits: u32,
        dst: Register,
        src: Register,
    },
    /// `dst` with its low 16, 32 or 64 bits in another byte order (section 4.2).
    End {
        kind: EndKind,
        bits: u32,
        dst: Register,
    },
    /// `dst = value`, an instruction of two slots (section 5.4).
    LoadWide {
        dst: Register,
        value: u64,
    },
    /// `dst = *(base + offset)`, zero-extended (section 5.1).
    Load {
        size: Size,
        dst: Register,
        base: Register,
        offset: i16,
    },
    /// `dst = *(base + offset)`, sign-extended from one, two or four bytes (section 5.2).
    LoadSx {
        size: Size,
        dst: Register,
        base: Register,
        offset: i16,
    },
    /// `*(base + offset) = src` (section 5.1).
    Store {
        size: Size,
        base: Register,
        offset: i16,
        src: Register,
    },
    /// `*(base + offset) = imm` (section 5.1).
    StoreImm {
        size: Size,
        base: Register,
        offset: i16,
        imm: i32,
    },
    /// A jump over `distance` slots (section 4.3).
    Jump {
        distance: i16,
    },
    /// A jump over `distance` slots, a number of 32 bits (section 4.3).
    JumpLong {
        distance: i32,
    },
    /// A jump over `distance` slots if `dst test src` holds (section 4.3).
    JumpIf {
        width: Width,
        test: Test,
        dst: Register,
        src: Source,
        distance: i16,
    },
    /// The end of the program; R0 is its answer (section 4.3).
    Exit,
}

impl Insn {
    ghost use Rattle.std.specs.Prelude.{◌≡◌};
    ghost use Rattle.instruction_set.specs.Machine.{slots_of};
    ghost use Rattle.instruction_set.specs.Slots.{NumbersFit};

    /// Returns the number of its slots: two for a wide load, one for any other instruction.
    pub fn slots(self) -> usize
        ensures { result ≡ slots_of self }
    {
        match self {
            Insn::LoadWide { .. } => 2,
            _ => 1,
        }
    }

    /// States that its numbers have the widths of their fields. Does nothing at run time.
    pub fn known(self)
        ensures { NumbersFit self }
    {
        match self {
            Insn::Alu {
                src: Source::Imm(imm),
                ..
            } => {
                let _imm = imm;
            }
            Insn::LoadWide { value, .. } => {
                let _value = value;
            }
            Insn::JumpIf {
                src: Source::Imm(imm),
                distance,
                ..
            } => {
                let _numbers = (imm, distance);
            }
            _ => {}
        }
    }
}
