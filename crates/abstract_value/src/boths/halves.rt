//! The normal form of two ranges, by halves on which both orders agree.
ghost use Rattle.std.specs.Prelude.{◌≡◌};
ghost use Rattle.abstract_value.specs.model.Halves as halves;
ghost use Rattle.abstract_value.specs.Boths.{both_join};
ghost use Rattle.abstract_value.specs.model.NormalForms as forms;

use super::Both;
use crate::intervals::ends::{between, nonempty};
use crate::{Domain, Interval};

/// The sign bit.
pub const SIGN: u64 = 0x8000_0000_0000_0000;

// Returns the words of both ranges below 2^63.
fn low_half(u: &Interval, s: &Interval) -> Option<Interval>
    ensures { result ≡ halves.low_half u.now s.now }
{
    if s.hi >= SIGN {
        nonempty(u.lo.max(s.lo.saturating_sub(SIGN)), u.hi.min(s.hi - SIGN))
    } else {
        None
    }
}

// Returns the words of both ranges from 2^63 on.
fn high_half(u: &Interval, s: &Interval) -> Option<Interval>
    ensures { result ≡ halves.high_half u.now s.now }
{
    if s.lo < SIGN {
        nonempty(u.lo.max(s.lo + SIGN), u.hi.min(s.hi.saturating_add(SIGN)))
    } else {
        None
    }
}

// Returns the hull of two halves.
fn hull(low: Option<Interval>, high: Option<Interval>) -> Interval
    ensures { result ≡ halves.hull low high }
{
    match (low, high) {
        (None, None) => Interval::full(),
        (Some(l), None) => l,
        (None, Some(h)) => h,
        (Some(l), Some(h)) => between(l.lo, h.hi),
    }
}

// Returns the hull of two halves in the order of signed numbers.
fn signed_hull(low: Option<Interval>, high: Option<Interval>) -> Interval
    ensures { result ≡ halves.signed_hull low high }
{
    match (low, high) {
        (None, None) => Interval::full(),
        (Some(l), None) => between(l.lo.saturating_add(SIGN), l.hi.saturating_add(SIGN)),
        (None, Some(h)) => between(h.lo.saturating_sub(SIGN), h.hi.saturating_sub(SIGN)),
        (Some(l), Some(h)) => between(h.lo.saturating_sub(SIGN), l.hi.saturating_add(SIGN)),
    }
}

/// Normalizes two ranges; returns all words if they have no common word.
pub fn shaped(u: &Interval, s: &Interval) -> Both
    ensures { result ≡ forms.shaped u.now s.now }
{
    let low = low_half(u, s);
    let high = high_half(u, s);
    let words = hull(low, high);
    let signed = signed_hull(low, high);
    Both {
        u: words,
        s: signed,
    }
}

/// Normalizes two ranges, or returns `None` if they have no common word.
pub fn normal(u: &Interval, s: &Interval) -> Option<Both>
    ensures { result ≡ forms.normal u.now s.now }
{
    match (low_half(u, s), high_half(u, s)) {
        (None, None) => None,
        _ => Some(shaped(u, s)),
    }
}

/// Lifts a range of words: no bound on the signed order.
pub fn lift(u: &Interval) -> Both
    ensures { result ≡ forms.lift u.now }
{
    shaped(u, &Interval::full())
}

/// Joins both ranges.
pub fn join(a: &Both, b: &Both) -> Both
    ensures { result ≡ both_join a.now b.now }
{
    Both {
        u: a.u.join(&b.u),
        s: a.s.join(&b.s),
    }
}
