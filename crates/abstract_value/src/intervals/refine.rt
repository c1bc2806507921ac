//! Ranges cut to the words that take an edge.
ghost use Rattle.std.specs.Prelude.{◌≡◌, ◌<◌, ◌^◌};
ghost use Rattle.instruction_set.specs.Operations.{bits_of};
ghost use Rattle.abstract_value.specs.Ranges as ranges;

use super::Interval;
use super::ends::{between, greatest, nonempty};
use instruction_set::{Test, Width};

/// Refines both ranges to the words that take the edge, or returns `None` if one of them is empty.
pub fn refine(
    width: Width,
    test: Test,
    taken: bool,
    a: &Interval,
    b: &Interval,
) -> Option<(Interval, Interval)>
    ensures { result ≡ ranges.interval_refine width test taken a.now b.now }
{
    let most = greatest(width);
    if a.hi <= most && b.hi <= most {
        of_words(test, taken, a, b)
    } else {
        Some((*a, *b))
    }
}

/// Refines both ranges to the words that take the edge, where the test reads the whole words.
pub fn of_words(test: Test, taken: bool, a: &Interval, b: &Interval) -> Option<(Interval, Interval)>
    ensures { result ≡ ranges.refine_row test taken a.now b.now }
{
    match (test, taken) {
        (Test::Jeq, true) | (Test::Jne, false) => equal(a, b),
        (Test::Jeq, false) | (Test::Jne, true) => different(a, b),
        (Test::Jgt, true) | (Test::Jle, false) => greater(a, b),
        (Test::Jgt, false) | (Test::Jle, true) => at_most(a, b),
        (Test::Jge, true) | (Test::Jlt, false) => at_least(a, b),
        (Test::Jge, false) | (Test::Jlt, true) => less(a, b),
        (Test::Jset | Test::Jsgt | Test::Jsge | Test::Jslt | Test::Jsle, _) => Some((*a, *b)),
    }
}

// Refines both ranges to the words that they share.
fn equal(a: &Interval, b: &Interval) -> Option<(Interval, Interval)>
    ensures { result ≡ ranges.where_equal a.now b.now }
{
    let both = nonempty(a.lo.max(b.lo), a.hi.min(b.hi))?;
    Some((both, both))
}

// Drops an end that is the other range's only word.
fn without(a: &Interval, b: &Interval) -> Option<Interval>
    ensures { result ≡ ranges.without_end a.now b.now }
{
    if b.lo != b.hi {
        return Some(*a);
    }
    if a.lo == a.hi && a.lo == b.lo {
        return None;
    }
    let lo = if a.lo == b.lo { a.lo + 1 } else { a.lo };
    let hi = if a.hi == b.lo { a.hi - 1 } else { a.hi };
    nonempty(lo, hi)
}

// Refines both ranges to different words.
fn different(a: &Interval, b: &Interval) -> Option<(Interval, Interval)>
    ensures { result ≡ ranges.where_different a.now b.now }
{
    Some((without(a, b)?, without(b, a)?))
}

// Refines both ranges to words where the first is greater.
fn greater(a: &Interval, b: &Interval) -> Option<(Interval, Interval)>
    ensures { result ≡ ranges.where_greater a.now b.now }
{
    if a.hi <= b.lo {
        return None;
    }
    Some((
        between(a.lo.max(b.lo + 1), a.hi),
        between(b.lo, b.hi.min(a.hi - 1)),
    ))
}

// Refines both ranges to words where the first is greater or equal.
fn at_least(a: &Interval, b: &Interval) -> Option<(Interval, Interval)>
    ensures { result ≡ ranges.where_at_least a.now b.now }
{
    if a.hi < b.lo {
        return None;
    }
    Some((between(a.lo.max(b.lo), a.hi), between(b.lo, b.hi.min(a.hi))))
}

// Refines both ranges to words where the first is less.
fn less(a: &Interval, b: &Interval) -> Option<(Interval, Interval)>
    ensures { result ≡ ranges.where_less a.now b.now }
{
    if b.hi <= a.lo {
        return None;
    }
    Some((
        between(a.lo, a.hi.min(b.hi - 1)),
        between(b.lo.max(a.lo + 1), b.hi),
    ))
}

// Refines both ranges to words where the first is less or equal.
fn at_most(a: &Interval, b: &Interval) -> Option<(Interval, Interval)>
    ensures { result ≡ ranges.where_at_most a.now b.now }
{
    if b.hi < a.lo {
        return None;
    }
    Some((between(a.lo, a.hi.min(b.hi)), between(b.lo.max(a.lo), b.hi)))
}
