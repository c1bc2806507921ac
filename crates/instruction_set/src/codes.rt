//! The numbers of the opcode table (RFC 9669, sections 3, 4 and 5).

// Classes: the low three bits of an opcode.

/// Class: wide load.
pub const LD: u8 = 0;

/// Class: load into a register.
pub const LDX: u8 = 1;

/// Class: store of an immediate.
pub const ST: u8 = 2;

/// Class: store of a register.
pub const STX: u8 = 3;

/// Class: arithmetic on 32 bits.
pub const ALU: u8 = 4;

/// Class: jumps, with tests on 64 bits.
pub const JMP: u8 = 5;

/// Class: jumps with tests on 32 bits, and the long jump.
pub const JMP32: u8 = 6;

/// Class: arithmetic on 64 bits.
pub const ALU64: u8 = 7;

// Codes of operations: the high four bits of an opcode of class ALU or ALU64.

/// Code: sum.
pub const ADD: u8 = 0;

/// Code: difference.
pub const SUB: u8 = 1;

/// Code: product.
pub const MUL: u8 = 2;

/// Code: quotient, unsigned or signed.
pub const DIV: u8 = 3;

/// Code: bitwise or.
pub const OR: u8 = 4;

/// Code: bitwise and.
pub const AND: u8 = 5;

/// Code: left shift.
pub const LSH: u8 = 6;

/// Code: right shift that fills with zeros.
pub const RSH: u8 = 7;

/// Code: negation.
pub const NEG: u8 = 8;

/// Code: remainder, unsigned or signed.
pub const MOD: u8 = 9;

/// Code: bitwise exclusive or.
pub const XOR: u8 = 10;

/// Code: move, also with sign extension.
pub const MOV: u8 = 11;

/// Code: right shift that fills with the sign.
pub const ARSH: u8 = 12;

/// Code: byte swap.
pub const END: u8 = 13;

// Codes of jumps: the high four bits of an opcode of class JMP or JMP32.

/// Code: unconditional jump.
pub const JA: u8 = 0;

/// Code: jump if equal.
pub const JEQ: u8 = 1;

/// Code: jump if greater, unsigned.
pub const JGT: u8 = 2;

/// Code: jump if greater or equal, unsigned.
pub const JGE: u8 = 3;

/// Code: jump if the bitwise and isn't zero.
pub const JSET: u8 = 4;

/// Code: jump if not equal.
pub const JNE: u8 = 5;

/// Code: jump if greater, signed.
pub const JSGT: u8 = 6;

/// Code: jump if greater or equal, signed.
pub const JSGE: u8 = 7;

/// Code: end of the program.
pub const EXIT: u8 = 9;

/// Code: jump if less, unsigned.
pub const JLT: u8 = 10;

/// Code: jump if less or equal, unsigned.
pub const JLE: u8 = 11;

/// Code: jump if less, signed.
pub const JSLT: u8 = 12;

/// Code: jump if less or equal, signed.
pub const JSLE: u8 = 13;

// Sizes of loads and stores: two bits of the opcode.

/// Size: four bytes.
pub const WORD: u8 = 0;

/// Size: two bytes.
pub const HALF: u8 = 1;

/// Size: one byte.
pub const BYTE: u8 = 2;

/// Size: eight bytes.
pub const DOUBLE: u8 = 3;

// Modes of loads and stores: the high three bits of the opcode.

/// Mode: immediate.
pub const IMM: u8 = 0;

/// Mode: plain load or store.
pub const MEM: u8 = 3;

/// Mode: load with sign extension.
pub const MEMSX: u8 = 4;
