//! The text of the signed numbers among words.
ghost use Rattle.std.specs.Prelude.{◌≡◌, ◌≤◌, ◌<◌, ◌^◌, ℕ, IfOk, string_bytes};
ghost use Rattle.explanation.specs.SignedRanges.{IsBetween, ends_text, signed_text};

use abstract_value::Domain;
use instruction_set::{Test, Width};
use std::alloc::{AllocError, Global};

// The least word that is a negative number.
const SIGN: u64 = 0x8000_0000_0000_0000;

// Returns the text of the numbers from the negative number of a word to a number that isn't negative, unless these are all.
fn ends_text(alloc: Global, low: u64, high: u64) -> Result<String, AllocError>
    requires { 2 ^ 63 ≤ low }
    ensures { IfOk result (λ text. string_bytes text ≡ ends_text low high) }
{
    if low == SIGN && high == SIGN - 1 {
        return Ok(String::new(alloc));
    }
    let below = u64::MAX - low + 1;
    format!(in alloc; " signed -{below}..{high}")
}

/// Returns the text of the signed range of words, if it is smaller than the one that their bounds give.
pub(crate) fn signed_text<D: Domain>(alloc: Global, words: &D) -> Result<String, AllocError>
    ensures { IfOk result (λ text. string_bytes text ≡ signed_text D.ops words.now) }
{
    let (low, high) = words.bounds();
    if high < SIGN || SIGN <= low {
        return Ok(String::new(alloc));
    }
    let zero = D::single(0);
    let negative = D::refine(Width::W64, Test::Jslt, true, words, &zero);
    let other = D::refine(Width::W64, Test::Jsge, true, words, &zero);
    match (negative, other) {
        (Some(negative), Some(other)) => {
            let (low, _) = negative.0.bounds();
            let (_, high) = other.0.bounds();
            ends_text(alloc, low.max(SIGN), high.min(SIGN - 1))
        }
        _ => Ok(String::new(alloc)),
    }
}

/// States that the signed range of a value holds each of its words. Does nothing at run time.
pub fn signed_range_theorem<D: Domain>()
    ensures { (a : D) (v : ℕ) → v < 2 ^ 64 → D.ops.holds a v → IsBetween D.ops a v }
{}
