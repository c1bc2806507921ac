//! Reads the fields of a slot from its bytes, and checks them (RFC 9669, section 3).
ghost use Rattle.std.specs.Prelude.{◌≡◌, ◌≤◌, true, false, length, IfOk, IfErr};
ghost use Rattle.insn_codec.specs.Faults.{fields_at, IsBadRegister, IsNotZero};
ghost use Rattle.insn_codec.specs.model.Front.{Taken, IsZeroed};
ghost use Rattle.insn_codec.specs.declared.fault.SlotFault.TheVariants.{BadRegister};

use crate::fault::SlotFault;
use byteorder::{ByteOrder, LittleEndian};
use instruction_set::{Fields, Register, Role};

/// Bytes of a slot.
pub(crate) const SLOT_LEN: usize = 8;

/// Reads the fields of the slot at the front of the bytes.
pub(crate) fn fields_at(bytes: &[u8]) -> Fields
    requires { 8 ≤ length bytes.now }
    ensures { result ≡ fields_at bytes.now }
{
    Fields {
        opcode: bytes[0],
        dst: bytes[1] % 16,
        src: bytes[1] / 16,
        offset: LittleEndian::read_u16(&bytes[2..4]),
        imm: LittleEndian::read_u32(&bytes[4..8]),
    }
}

/// Returns the register in a field of this role, or R0 if the field holds none.
pub(crate) fn register_in(role: Role, number: u8) -> Result<Register, SlotFault>
    ensures taken { IfOk result (λ register. Taken role register.number number) }
    ensures good { IfOk result (λ _. IsBadRegister role number → ⊥) }
    ensures bad { IfErr result (λ fault. (fault ≡ BadRegister) × IsBadRegister role number) }
{
    match role {
        Role::Operand if number > 10 => Err(SlotFault::BadRegister),
        Role::Operand => Ok(Register { number }),
        Role::Selects | Role::Unused => Ok(Register { number: 0 }),
    }
}

/// Returns whether a field of this role may have this value.
pub(crate) fn is_allowed(role: Role, value: u32) -> bool
    ensures allowed { result ≡ true → IsZeroed role value }
    ensures refused { result ≡ false → IsNotZero role value }
{
    match role {
        Role::Unused => value == 0,
        Role::Operand | Role::Selects => true,
    }
}
