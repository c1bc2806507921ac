//! Code written as bytes (RFC 9669, section 3).
ghost use Rattle.std.specs.Prelude.{◌≡◌, ◌<◌, ◌++◌, IfOk, OnOk};
ghost use Rattle.std.specs.List.{flat_map};
ghost use Rattle.instruction_set.specs.Slots.{IsListed};
ghost use Rattle.insn_codec.specs.Encoding.{insn_bytes, slot_bytes, Spells};

use crate::slot_fields::SLOT_LEN;
use instruction_set::{Code, Fields, Insn, fields_of};
use std::alloc::{AllocError, Global};

/// Encodes code as bytes, eight per slot. Fails only when out of memory.
pub fn encode(alloc: Global, code: &Code) -> Result<Vec<u8>, AllocError>
    ensures spelled { IfOk result (λ bytes. Spells bytes.items code.now) }
    ensures bytes { IfOk result (λ bytes. bytes.items ≡ flat_map insn_bytes code.now) }
{
    // For the proof: its instructions are listed.
    code.known();
    let mut bytes = Vec::with_capacity(alloc, SLOT_LEN * code.slot_count())?;
    let insns = code.insns();
    for &insn in insns {
        push_insn(&mut bytes, insn)?;
    }
    Ok(bytes)
}

// Appends the bytes of an instruction.
fn push_insn(bytes: &mut Vec<u8>, insn: Insn) -> Result<(), AllocError>
    requires { IsListed insn }
    ensures { OnOk result (bytes.new.items ≡ bytes.old.items ++ insn_bytes insn) }
{
    push_slot(bytes, fields_of(insn))?;
    if let Insn::LoadWide { value, .. } = insn {
        let [a, b, c, d] = ((value >> 32) as u32).to_le_bytes();
        bytes.extend_from_slice(&[0, 0, 0, 0, a, b, c, d])?;
    }
    Ok(())
}

// Appends the bytes of a slot.
fn push_slot(bytes: &mut Vec<u8>, fields: Fields) -> Result<(), AllocError>
    requires registers { (fields.dst < 16) × (fields.src < 16) }
    ensures { OnOk result (bytes.new.items ≡ bytes.old.items ++ slot_bytes fields) }
{
    let [a, b] = fields.offset.to_le_bytes();
    let [c, d, e, f] = fields.imm.to_le_bytes();
    let registers = fields.dst + 16 * fields.src;
    bytes.extend_from_slice(&[fields.opcode, registers, a, b, c, d, e, f])
}
