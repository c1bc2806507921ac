//! Parses numbers.
ghost use Rattle.std.specs.Prelude.{◌≡◌, ◌≤◌, ◌<◌, ◌^◌, ◌+◌, ◌≤ℤ◌, pos, neg_ℤ, IfOk, option_copied, FitsSigned};
ghost use Rattle.std.specs.Int.{w16, w32};
ghost use Rattle.assembler_text.specs.model.Reading.{number_at, decimal_at, negative_at, imm_at, value_at, step_at, strip, hex_digits};

use crate::faults::Fault;

/// Strips a leading character, or returns `None` if the text doesn't begin with it.
pub fn strip(byte: u8, text: &[u8]) -> Option<&[u8]>
    ensures { option_copied result ≡ strip byte text.now }
{
    match text {
        [first, rest @ ..] if *first == byte => Some(rest),
        _ => None,
    }
}

// Parses one or more digits as a number of at most `most`.
#[tactic(auto, using(crate::proofs::Numbers::capped), unfolding(crate::specs::model::Reading::number_at))]
fn number(radix: u32, most: u64, digits: &[u8]) -> Result<u64, Fault>
    requires radix { (2 ≤ radix) × (radix ≤ 16) }
    ensures value { result ≡ number_at radix most digits.now }
    ensures within { IfOk result (λ n. n ≤ most) }
{
    if digits.is_empty() {
        return Err(Fault::Operand);
    }
    let mut number: u128 = 0;
    for digit in digits {
        let Some(value) = char::from(*digit).to_digit(radix) else {
            return Err(Fault::Operand);
        };
        number = (number * u128::from(radix) + u128::from(value)).min(1 << 64);
    }
    if number > u128::from(most) {
        return Err(Fault::NumberRange);
    }
    Ok(number as u64)
}

// Parses decimal digits without a leading zero as a number of at most `most`.
#[tactic(auto, unfolding(crate::specs::model::Reading::decimal_at))]
fn decimal(most: u64, digits: &[u8]) -> Result<u64, Fault>
    ensures value { result ≡ decimal_at most digits.now }
    ensures within { IfOk result (λ n. n ≤ most) }
{
    match digits {
        [b'0', _, ..] => Err(Fault::Operand),
        _ => number(10, most, digits),
    }
}

// Parses the digits of a negative number.
#[tactic(auto, unfolding(crate::specs::model::Reading::negative_at))]
fn negative(most: u32, digits: &[u8]) -> Result<i64, Fault>
    requires { most ≤ 2 ^ 31 }
    ensures value { result ≡ negative_at most digits.now }
    ensures within { IfOk result (λ z. (neg_ℤ (pos most) ≤ℤ z) × (z ≤ℤ pos 0)) }
{
    match decimal(u64::from(most), digits)? {
        0 => Err(Fault::Operand),
        number => Ok(-(number as i64)),
    }
}

// Returns the digits after `0x`.
#[tactic(auto, unfolding(crate::specs::model::Reading::hex_digits))]
fn hex_digits(word: &[u8]) -> Option<&[u8]>
    ensures { option_copied result ≡ hex_digits word.now }
{
    strip(b'x', strip(b'0', word)?)
}

/// Parses an immediate: decimal, or its 32 bits in hex.
#[tactic(auto, unfolding(crate::specs::model::Reading::imm_at))]
pub fn imm(word: &[u8]) -> Result<i32, Fault>
    ensures { result ≡ imm_at word.now }
{
    if let Some(digits) = strip(b'-', word) {
        return Ok(negative(1 << 31, digits)? as i32);
    }
    if let Some(digits) = hex_digits(word) {
        let bits = number(16, u64::from(u32::MAX), digits)? as u32;
        return Ok(bits.cast_signed());
    }
    Ok(decimal((1 << 31) - 1, word)? as i32)
}

/// Parses a 64-bit value, decimal or in hex.
#[tactic(auto, unfolding(crate::specs::model::Reading::value_at))]
pub fn value(word: &[u8]) -> Result<u64, Fault>
    ensures { result ≡ value_at word.now }
{
    match hex_digits(word) {
        Some(digits) => number(16, u64::MAX, digits),
        None => decimal(u64::MAX, word),
    }
}

// Parses a signed step, at most `most` up and one more down.
#[tactic(auto, unfolding(crate::specs::model::Reading::step_at))]
fn step(most: u32, word: &[u8]) -> Result<i64, Fault>
    requires { most < 2 ^ 31 }
    ensures value { result ≡ step_at most word.now }
    ensures within { IfOk result (λ z. (neg_ℤ (pos (most + 1)) ≤ℤ z) × (z ≤ℤ pos most)) }
{
    if let Some(digits) = strip(b'+', word) {
        return Ok(decimal(u64::from(most), digits)? as i64);
    }
    match strip(b'-', word) {
        Some(digits) => negative(most + 1, digits),
        None => Err(Fault::Operand),
    }
}

/// Parses an offset or a distance of 16 bits.
pub fn short_step(word: &[u8]) -> Result<i16, Fault>
    ensures { result ≡ step_at 32767 word.now }
{
    Ok(step((1 << 15) - 1, word)? as i16)
}

/// Parses a distance of 32 bits.
pub fn long_step(word: &[u8]) -> Result<i32, Fault>
    ensures { result ≡ step_at 2147483647 word.now }
{
    Ok(step((1 << 31) - 1, word)? as i32)
}
