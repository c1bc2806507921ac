//! The memory of a run: one array, which holds the record and the stack after it.
ghost use Rattle.std.specs.Prelude.{◌≡◌, ℕ, ◌+◌, ◌-◌, ◌/◌, ◌%◌, ◌^◌, ◌<◌, ◌≤◌, ◌&&◌, nat_le, nat_lt, if◌then◌else◌, IsSome, Some, length, slice_index};
ghost use Rattle.byteorder.specs.Endian.{little_from};
ghost use Rattle.instruction_set.specs.Machine.{bytes_of, read_bytes, written};
ghost use Rattle.one_step.specs.Flat.{flat};

use byteorder::{ByteOrder, LittleEndian};
use instruction_set::{RECORD_LEN, STACK_LEN, Size};

/// Bytes of the record and the stack together. The record is at 0, the stack after it.
pub const MEMORY_LEN: usize = RECORD_LEN + STACK_LEN;

// Reads a little-endian word of the size.
#[inline]
fn word_from(bytes: &[u8], at: usize, size: Size) -> u64
    requires { at + bytes_of size ≤ length bytes.now }
    ensures { result ≡ little_from at (bytes_of size) bytes.now }
{
    match size {
        Size::Byte => u64::from(bytes[at]),
        Size::Half => u64::from(LittleEndian::read_u16(&bytes[at..])),
        Size::Word => u64::from(LittleEndian::read_u32(&bytes[at..])),
        Size::Double => LittleEndian::read_u64(&bytes[at..]),
    }
}

// Writes the low bytes of a word, little-endian.
#[inline]
fn put_word(bytes: &mut [u8], at: usize, size: Size, word: u64)
    requires { at + bytes_of size ≤ length bytes.old }
    ensures { (k : ℕ) → slice_index bytes.new k ≡ (if nat_le at k && nat_lt k (at + bytes_of size)
        then word / 256 ^ (k - at) % 256
        else slice_index bytes.old k) }
{
    match size {
        Size::Byte => bytes[at] = (word % 0x100) as u8,
        Size::Half => LittleEndian::write_u16(&mut bytes[at..], (word % 0x1_0000) as u16),
        Size::Word => LittleEndian::write_u32(&mut bytes[at..], (word % 0x1_0000_0000) as u32),
        Size::Double => LittleEndian::write_u64(&mut bytes[at..], word),
    }
}

// Reads the word at an address. Requires all its bytes.
#[inline]
pub(crate) fn load(memory: &[u8], address: u64, size: Size) -> u64
    requires { IsSome (read_bytes (flat memory.now) address (bytes_of size)) }
    ensures { read_bytes (flat memory.now) address (bytes_of size) ≡ Some result }
{
    word_from(memory, address as usize, size)
}

// Writes the low bytes of a word to an address.
#[inline]
pub(crate) fn store(memory: &mut [u8], address: u64, size: Size, word: u64)
    requires { address + bytes_of size ≤ length memory.old }
    ensures long { length memory.new ≡ length memory.old }
    ensures bytes { (a : ℕ) → flat memory.new a ≡ written (flat memory.old) address (bytes_of size) word a }
{
    put_word(memory, address as usize, size, word);
}
