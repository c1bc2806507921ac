//! The numbers in an object file, and its headers.
ghost use Rattle.std.specs.Prelude.{◌≡◌, ◌+◌, ◌*◌, ◌<◌, ◌≤◌, ◌^◌, true, nat_le, length, take};
ghost use Rattle.std.specs.Str.{bytes_eq};
ghost use Rattle.code_file.specs.Objects.{little_number_at, start, is_object, has_headers, header, headers_at, section_count, names_section};

use byteorder::{ByteOrder, LittleEndian};

/// The length of the header of a file, and of a section, in bytes.
pub(crate) const HEADER_LEN: usize = 64;

// The first bytes of a file of 64 bits, with the lowest byte of a number first.
const START: &'static [u8] = b"\x7fELF\x02\x01\x01";

// The number of the machine BPF.
const BPF: usize = 247;

/// Returns the number in two bytes at an offset.
pub(crate) fn half_at(bytes: &[u8], at: usize) -> usize
    requires { at + 2 ≤ length bytes.now }
    ensures value { result ≡ little_number_at at 2 bytes.now }
    ensures bound { result < 65536 }
{
    usize::from(LittleEndian::read_u16(&bytes[at..]))
}

/// Returns the number in four bytes at an offset.
pub(crate) fn word_at(bytes: &[u8], at: usize) -> usize
    requires { at + 4 ≤ length bytes.now }
    ensures value { result ≡ little_number_at at 4 bytes.now }
{
    LittleEndian::read_u32(&bytes[at..]) as usize
}

/// Returns the number in eight bytes at an offset.
pub(crate) fn long_at(bytes: &[u8], at: usize) -> usize
    requires { at + 8 ≤ length bytes.now }
    ensures value { result ≡ little_number_at at 8 bytes.now }
{
    LittleEndian::read_u64(&bytes[at..]) as usize
}

// Checks whether bytes from an offset on lie in the file.
pub(crate) fn lies_in(file: &[u8], at: usize, size: usize) -> bool
    ensures { result ≡ nat_le (at + size) (length file.now) }
{
    at <= file.len() && size <= file.len() - at
}

// Checks whether the section headers lie in a file, and one of them has the names.
fn has_headers(file: &[u8]) -> bool
    requires { 64 ≤ length file.now }
    ensures { result ≡ has_headers file.now }
{
    let count = half_at(file, 60);
    half_at(file, 58) == HEADER_LEN
        && lies_in(file, long_at(file, 40), HEADER_LEN * count)
        && half_at(file, 62) < count
}

/// Checks whether a file is an object file for BPF.
pub(crate) fn is_object(file: &[u8]) -> bool
    ensures { result ≡ is_object file.now }
{
    file.len() >= HEADER_LEN && &file[..7] == START && half_at(file, 18) == BPF && has_headers(file)
}

/// Returns the number of sections of an object file.
pub(crate) fn section_count(file: &[u8]) -> usize
    requires { is_object file.now ≡ true }
    ensures value { result ≡ section_count file.now }
    ensures bound { result < 65536 }
{
    half_at(file, 60)
}

/// Returns the section that has the names.
pub(crate) fn names_section(file: &[u8]) -> usize
    requires { is_object file.now ≡ true }
    ensures value { result ≡ names_section file.now }
    ensures bound { result < section_count file.now }
{
    half_at(file, 62)
}

/// Returns the header of a section.
pub(crate) fn header(file: &[u8], section: usize) -> &[u8]
    requires object { is_object file.now ≡ true }
    requires within { section < section_count file.now }
    ensures value { result.now ≡ header file.now section }
    ensures len { length result.now ≡ 64 }
{
    let at = long_at(file, 40) + HEADER_LEN * section;
    &file[at..at + HEADER_LEN]
}
