//! Mnemonics.
ghost use Rattle.std.specs.Prelude.{◌≡◌};
ghost use Rattle.assembler_text.specs.model.Mnemonics.{mnemonic_at};

use crate::lexer::lookup;
use instruction_set::{AluOp, EndKind, Size, Test, Width};

/// An instruction without its operands, as its mnemonic names it.
#[derive(Clone, Copy, Debug, PartialEq, Eq)]
pub enum Mnemonic {
    Alu(Width, AluOp),
    Neg(Width),
    MovSx(Width, u32),
    End(EndKind, u32),
    LoadWide,
    Load(Size),
    LoadSx(Size),
    Store(Size),
    StoreImm(Size),
    Jump,
    JumpLong,
    JumpIf(Width, Test),
    Exit,
}

// The mnemonics with their spellings.
const NAMES: [(&[u8], Mnemonic); 85] = [
    (b"add32", Mnemonic::Alu(Width::W32, AluOp::Add)),
    (b"add64", Mnemonic::Alu(Width::W64, AluOp::Add)),
    (b"sub32", Mnemonic::Alu(Width::W32, AluOp::Sub)),
    (b"sub64", Mnemonic::Alu(Width::W64, AluOp::Sub)),
    (b"mul32", Mnemonic::Alu(Width::W32, AluOp::Mul)),
    (b"mul64", Mnemonic::Alu(Width::W64, AluOp::Mul)),
    (b"div32", Mnemonic::Alu(Width::W32, AluOp::Div)),
    (b"div64", Mnemonic::Alu(Width::W64, AluOp::Div)),
    (b"sdiv32", Mnemonic::Alu(Width::W32, AluOp::SDiv)),
    (b"sdiv64", Mnemonic::Alu(Width::W64, AluOp::SDiv)),
    (b"or32", Mnemonic::Alu(Width::W32, AluOp::Or)),
    (b"or64", Mnemonic::Alu(Width::W64, AluOp::Or)),
    (b"and32", Mnemonic::Alu(Width::W32, AluOp::And)),
    (b"and64", Mnemonic::Alu(Width::W64, AluOp::And)),
    (b"lsh32", Mnemonic::Alu(Width::W32, AluOp::Lsh)),
    (b"lsh64", Mnemonic::Alu(Width::W64, AluOp::Lsh)),
    (b"rsh32", Mnemonic::Alu(Width::W32, AluOp::Rsh)),
    (b"rsh64", Mnemonic::Alu(Width::W64, AluOp::Rsh)),
    (b"mod32", Mnemonic::Alu(Width::W32, AluOp::Mod)),
    (b"mod64", Mnemonic::Alu(Width::W64, AluOp::Mod)),
    (b"smod32", Mnemonic::Alu(Width::W32, AluOp::SMod)),
    (b"smod64", Mnemonic::Alu(Width::W64, AluOp::SMod)),
    (b"xor32", Mnemonic::Alu(Width::W32, AluOp::Xor)),
    (b"xor64", Mnemonic::Alu(Width::W64, AluOp::Xor)),
    (b"mov32", Mnemonic::Alu(Width::W32, AluOp::Mov)),
    (b"mov64", Mnemonic::Alu(Width::W64, AluOp::Mov)),
    (b"arsh32", Mnemonic::Alu(Width::W32, AluOp::Arsh)),
    (b"arsh64", Mnemonic::Alu(Width::W64, AluOp::Arsh)),
    (b"neg32", Mnemonic::Neg(Width::W32)),
    (b"neg64", Mnemonic::Neg(Width::W64)),
    (b"mov32s8", Mnemonic::MovSx(Width::W32, 8)),
    (b"mov32s16", Mnemonic::MovSx(Width::W32, 16)),
    (b"mov64s8", Mnemonic::MovSx(Width::W64, 8)),
    (b"mov64s16", Mnemonic::MovSx(Width::W64, 16)),
    (b"mov64s32", Mnemonic::MovSx(Width::W64, 32)),
    (b"le16", Mnemonic::End(EndKind::Little, 16)),
    (b"le32", Mnemonic::End(EndKind::Little, 32)),
    (b"le64", Mnemonic::End(EndKind::Little, 64)),
    (b"be16", Mnemonic::End(EndKind::Big, 16)),
    (b"be32", Mnemonic::End(EndKind::Big, 32)),
    (b"be64", Mnemonic::End(EndKind::Big, 64)),
    (b"swap16", Mnemonic::End(EndKind::Swap, 16)),
    (b"swap32", Mnemonic::End(EndKind::Swap, 32)),
    (b"swap64", Mnemonic::End(EndKind::Swap, 64)),
    (b"lddw", Mnemonic::LoadWide),
    (b"ldxb", Mnemonic::Load(Size::Byte)),
    (b"ldxh", Mnemonic::Load(Size::Half)),
    (b"ldxw", Mnemonic::Load(Size::Word)),
    (b"ldxdw", Mnemonic::Load(Size::Double)),
    (b"ldxsb", Mnemonic::LoadSx(Size::Byte)),
    (b"ldxsh", Mnemonic::LoadSx(Size::Half)),
    (b"ldxsw", Mnemonic::LoadSx(Size::Word)),
    (b"stb", Mnemonic::StoreImm(Size::Byte)),
    (b"sth", Mnemonic::StoreImm(Size::Half)),
    (b"stw", Mnemonic::StoreImm(Size::Word)),
    (b"stdw", Mnemonic::StoreImm(Size::Double)),
    (b"stxb", Mnemonic::Store(Size::Byte)),
    (b"stxh", Mnemonic::Store(Size::Half)),
    (b"stxw", Mnemonic::Store(Size::Word)),
    (b"stxdw", Mnemonic::Store(Size::Double)),
    (b"ja", Mnemonic::Jump),
    (b"jal", Mnemonic::JumpLong),
    (b"jeq", Mnemonic::JumpIf(Width::W64, Test::Jeq)),
    (b"jeq32", Mnemonic::JumpIf(Width::W32, Test::Jeq)),
    (b"jne", Mnemonic::JumpIf(Width::W64, Test::Jne)),
    (b"jne32", Mnemonic::JumpIf(Width::W32, Test::Jne)),
    (b"jgt", Mnemonic::JumpIf(Width::W64, Test::Jgt)),
    (b"jgt32", Mnemonic::JumpIf(Width::W32, Test::Jgt)),
    (b"jge", Mnemonic::JumpIf(Width::W64, Test::Jge)),
    (b"jge32", Mnemonic::JumpIf(Width::W32, Test::Jge)),
    (b"jlt", Mnemonic::JumpIf(Width::W64, Test::Jlt)),
    (b"jlt32", Mnemonic::JumpIf(Width::W32, Test::Jlt)),
    (b"jle", Mnemonic::JumpIf(Width::W64, Test::Jle)),
    (b"jle32", Mnemonic::JumpIf(Width::W32, Test::Jle)),
    (b"jset", Mnemonic::JumpIf(Width::W64, Test::Jset)),
    (b"jset32", Mnemonic::JumpIf(Width::W32, Test::Jset)),
    (b"jsgt", Mnemonic::JumpIf(Width::W64, Test::Jsgt)),
    (b"jsgt32", Mnemonic::JumpIf(Width::W32, Test::Jsgt)),
    (b"jsge", Mnemonic::JumpIf(Width::W64, Test::Jsge)),
    (b"jsge32", Mnemonic::JumpIf(Width::W32, Test::Jsge)),
    (b"jslt", Mnemonic::JumpIf(Width::W64, Test::Jslt)),
    (b"jslt32", Mnemonic::JumpIf(Width::W32, Test::Jslt)),
    (b"jsle", Mnemonic::JumpIf(Width::W64, Test::Jsle)),
    (b"jsle32", Mnemonic::JumpIf(Width::W32, Test::Jsle)),
    (b"exit", Mnemonic::Exit),
];

impl Mnemonic {
    /// Returns the mnemonic with this spelling, if any.
    #[tactic(auto, unfolding(crate::specs::model::Mnemonics::mnemonic_at))]
    pub fn of(word: &[u8]) -> Option<Mnemonic>
        ensures { result ≡ mnemonic_at word.now }
    {
        lookup(&NAMES, word)
    }
}
