//! Numbers in decimal digits.
ghost use Rattle.std.specs.Prelude.{◌≡◌, ◌≤◌, IfSome, MatchOption, None};
ghost use Rattle.script_text.specs.Words.{spelled_number};
ghost use Rattle.script_text.specs.Asking.{around_dot, long_of, owner_of, short_of};

use crate::fault::LineFault;
use clash_record::Owner;

/// Reads a word as a number of 64 bits.
pub fn long(word: &[u8]) -> Result<u64, LineFault>
    ensures { result ≡ long_of word.now }
{
    value(word, u64::MAX).ok_or(LineFault::Number)
}

// A node and a serial number with a dot between them.
pub(crate) fn owner(word: &[u8]) -> Result<Owner, LineFault>
    ensures { result ≡ owner_of word.now }
{
    let Some((node, serial)) = around_dot(word) else {
        return Err(LineFault::Number);
    };
    Ok(Owner {
        node: short(node)?,
        serial: short(serial)?,
    })
}

// A number of 32 bits.
fn short(word: &[u8]) -> Result<u32, LineFault>
    ensures { result ≡ short_of word.now }
{
    match value(word, u64::from(u32::MAX)) {
        Some(value) => Ok(value as u32),
        None => Err(LineFault::Number),
    }
}

// Returns the parts before and after the first dot.
fn around_dot(word: &[u8]) -> Option<(&[u8], &[u8])>
    ensures { MatchOption result (around_dot word.now ≡ None) (λ parts. around_dot word.now
        ≡ Some (parts.0.now, parts.1.now)) }
{
    for (at, byte) in word.iter().enumerate() {
        if *byte == b'.' {
            return Some((&word[..at], &word[at + 1..]));
        }
    }
    None
}

// The number that a word spells in decimal digits, without a sign and without zeros in front, if it is at most this.
fn value(word: &[u8], most: u64) -> Option<u64>
    ensures value { result ≡ spelled_number most word.now }
    ensures bound { IfSome result (λ value. value ≤ most) }
{
    if word.is_empty() || word.len() > 1 && word[0] == b'0' {
        return None;
    }
    let mut value: u64 = 0;
    for byte in word {
        if !byte.is_ascii_digit() {
            return None;
        }
        value = value.checked_mul(10)?.checked_add(u64::from(*byte - b'0'))?;
        if value > most {
            return None;
        }
    }
    Some(value)
}
