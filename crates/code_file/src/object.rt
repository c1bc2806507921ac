//! The code of an object file.
ghost use Rattle.std.specs.Prelude.{◌≡◌, ◌<◌, ◌≤◌, ℕ, List, true, false, nat_le, length, take, drop, IsTrue, IfSome, IfNone};
ghost use Rattle.code_file.specs.Objects.{IsObjectCode, IsTextSection, content, has_bytes, is_object, is_text, name_offset, names_section, relocates, section_count};

use crate::fields;
use crate::fields::{header, lies_in, long_at, names_section, section_count, word_at};

// The name of the section of code, and the zero after it.
const TEXT: &'static [u8] = b".text\0";

// Returns this many bytes from an offset on, as far as there are.
fn window(bytes: &[u8], at: usize, size: usize) -> &[u8]
    ensures { result.now ≡ take size (drop at bytes.now) }
{
    if at >= bytes.len() {
        return &[];
    }
    let rest = &bytes[at..];
    if size >= rest.len() {
        rest
    } else {
        &rest[..size]
    }
}

// Returns the bytes of a section, as far as they lie in the file.
fn content(file: &[u8], section: usize) -> &[u8]
    requires object { is_object file.now ≡ true }
    requires within { section < section_count file.now }
    ensures { result.now ≡ content file.now section }
{
    let header = header(file, section);
    window(file, long_at(header, 24), long_at(header, 32))
}

// Checks whether a section is named `.text`.
fn is_text(file: &[u8], section: usize) -> bool
    requires object { is_object file.now ≡ true }
    requires within { section < section_count file.now }
    ensures { result ≡ is_text file.now section }
{
    let names = content(file, names_section(file));
    let at = word_at(header(file, section), 0);
    window(names, at, TEXT.len()) == TEXT
}

// Checks whether a section has relocations of another one.
fn relocates(file: &[u8], other: usize, section: usize) -> bool
    requires object { is_object file.now ≡ true }
    requires within { section < section_count file.now }
    ensures { result ≡ relocates file.now other section }
{
    let header = header(file, section);
    let kind = word_at(header, 4);
    (kind == 4 || kind == 9) && word_at(header, 44) == other
}

// Checks whether a section has bytes, and all of them lie in the file.
fn has_bytes(file: &[u8], section: usize) -> bool
    requires object { is_object file.now ≡ true }
    requires within { section < section_count file.now }
    ensures { result ≡ has_bytes file.now section }
{
    let header = header(file, section);
    let size = long_at(header, 32);
    word_at(header, 4) == 1 && 0 < size && lies_in(file, long_at(header, 24), size)
}

// Returns the first section that is named `.text`.
fn text_section(file: &[u8]) -> Option<usize>
    requires { is_object file.now ≡ true }
    ensures some { IfSome result (λ section. IsTextSection file.now section) }
    ensures none { IfNone result ((other : ℕ) → other < section_count file.now → is_text file.now other ≡ false) }
{
    for section in 0..section_count(file) {
        if is_text(file, section) {
            return Some(section);
        }
    }
    None
}

// Checks whether no section has relocations of this one.
fn is_still(file: &[u8], section: usize) -> bool
    requires { is_object file.now ≡ true }
    ensures still { IsTrue result → (other : ℕ) → other < section_count file.now
        → relocates file.now section other ≡ false }
    ensures moved { result ≡ false → ((other : ℕ) → other < section_count file.now
        → relocates file.now section other ≡ false) → ⊥ }
{
    for other in 0..section_count(file) {
        if relocates(file, section, other) {
            return false;
        }
    }
    true
}

/// Returns the code of an object file for BPF: the bytes of its section `.text`.
///
/// Returns nothing for a file of another kind or machine, and for one without code in `.text` or with relocations of it.
pub fn code_in_object(file: &[u8]) -> Option<&[u8]>
    ensures code { IfSome result (λ code. IsObjectCode file.now code.now) }
    ensures none { IfNone result ((code : List ℕ) → IsObjectCode file.now code → ⊥) }
{
    if !fields::is_object(file) {
        return None;
    }
    match text_section(file) {
        Some(section) => code_in_section(file, section),
        None => None,
    }
}

// Returns the code in the first section that is named `.text`.
fn code_in_section(file: &[u8], section: usize) -> Option<&[u8]>
    requires object { is_object file.now ≡ true }
    requires text { IsTextSection file.now section }
    ensures code { IfSome result (λ code. IsObjectCode file.now code.now) }
    ensures none { IfNone result ((code : List ℕ) → IsObjectCode file.now code → ⊥) }
{
    if !has_bytes(file, section) {
        return None;
    }
    if !is_still(file, section) {
        return None;
    }
    Some(content(file, section))
}

/// States that an object file has one code. Does nothing at run time.
pub fn one_code_theorem()
    ensures { (file code other : List ℕ) → IsObjectCode file code → IsObjectCode file other → code ≡ other }
{}
