//! Tests of normal forms and of signed ranges, with expected values by hand.
use crate::assertions::{assert_gives, assert_same};
use crate::domain_calls::{
    compares_to_full, joined, of_alu, of_byte_extended, of_half_ordered, of_load, of_neg, of_refine,
};
use abstract_value::{Both, Domain, both_is_exact_theorem};
use instruction_set::{AluOp, EndKind, Size, Test, Width};
use std::test::Fail;

// The least and the greatest word of a value.
type Words = (u64, u64);

// The least and the greatest of them as signed numbers.
type Numbers = (i64, i64);

const TOP: u64 = u64::MAX;

const SIGN: u64 = 1 << 63;

const LEAST: i64 = i64::MIN;

const MOST: i64 = i64::MAX;

// Returns the words for which a test against this number holds.
fn cut(a: &Both, test: Test, number: i64) -> Option<Both> {
    let by = Both::single(number.cast_unsigned());
    Some(of_refine(Width::W64, test, true, a, &by)?.0)
}

// Returns the words between the ends of both kinds, if any.
fn words_of(words: Words, numbers: Numbers) -> Option<Both> {
    let from = cut(&Both::full(), Test::Jge, words.0.cast_signed())?;
    let to = cut(&from, Test::Jle, words.1.cast_signed())?;
    let from = cut(&to, Test::Jsge, numbers.0)?;
    cut(&from, Test::Jsle, numbers.1)
}

// Returns the words of the signed numbers between these.
fn numbers(lo: i64, hi: i64) -> Result<Both, Fail> {
    Ok(words_of((0, TOP), (lo, hi)).ok_or("no number")?)
}

// Returns whether these are a value's ends of both kinds: each end is one of its words, and none is beyond.
fn has_ends(a: &Both, (words, numbers): (Words, Numbers)) -> bool {
    a.bounds() == words
        && cut(a, Test::Jsle, numbers.0).is_some()
        && cut(a, Test::Jslt, numbers.0).is_none()
        && cut(a, Test::Jsge, numbers.1).is_some()
        && cut(a, Test::Jsgt, numbers.1).is_none()
}

// Returns whether a value exists exactly if ends are expected, with these ends.
fn is_as_wanted(a: Option<Both>, want: Option<(Words, Numbers)>) -> bool {
    match (a, want) {
        (Some(a), Some(want)) => has_ends(&a, want),
        (None, None) => true,
        _ => false,
    }
}

// Ends of both kinds, and the ends of the words between them, if any.
type Form = (Words, Numbers, Option<(Words, Numbers)>);

const FORMS: &[Form] = &[
    // One range, below 2^63 and from there.
    ((0, 10), (5, MOST), Some(((5, 10), (5, 10)))),
    ((9, TOP - 3), (-9, -1), Some(((TOP - 8, TOP - 3), (-9, -4)))),
    // Two ranges.
    ((3, TOP - 2), (-5, 7), Some(((3, TOP - 2), (-5, 7)))),
    ((3, TOP - 2), (-5, 2), Some(((TOP - 4, TOP - 2), (-5, -3)))),
    // One word, and none.
    ((7, SIGN - 1), (-3, 7), Some(((7, 7), (7, 7)))),
    ((8, TOP - 3), (-3, 7), None),
    // About 2^63.
    (
        (SIGN - 1, SIGN),
        (LEAST, MOST),
        Some(((SIGN - 1, SIGN), (LEAST, MOST))),
    ),
    (
        (SIGN - 1, SIGN),
        (0, MOST),
        Some(((SIGN - 1, SIGN - 1), (MOST, MOST))),
    ),
    (
        (SIGN - 1, SIGN),
        (LEAST, 0),
        Some(((SIGN, SIGN), (LEAST, LEAST))),
    ),
];

// Returns the first row with other words.
fn first_wrong_form(rows: &[Form]) -> Option<Form> {
    for row in rows {
        let (words, numbers, want) = *row;
        if !is_as_wanted(words_of(words, numbers), want) {
            return Some(*row);
        }
    }
    None
}

#[test]
fn normal_forms(rt: HostRuntime) {
    assert_same(&rt, first_wrong_form(FORMS), None);
}

// An operation of the numbers from -5 to 7 and those of a range, and the ends of its result.
type OfTwo = (Width, AluOp, Numbers, (Words, Numbers));

const OF_TWO: &[OfTwo] = &[
    (Width::W64, AluOp::Mov, (-2, 1), ((0, TOP), (-2, 1))),
    (Width::W64, AluOp::Add, (1, 2), ((0, TOP), (-4, 9))),
    (
        Width::W64,
        AluOp::Add,
        (1, MOST - 7),
        ((0, TOP), (-4, MOST)),
    ),
    (
        Width::W64,
        AluOp::Add,
        (1, MOST - 6),
        ((0, TOP), (LEAST, MOST)),
    ),
    (Width::W64, AluOp::Sub, (1, 2), ((0, TOP), (-7, 6))),
    (
        Width::W64,
        AluOp::Sub,
        (LEAST, 2),
        ((0, TOP), (LEAST, MOST)),
    ),
    (Width::W64, AluOp::Arsh, (65, 65), ((0, TOP), (-3, 3))),
    (
        Width::W32,
        AluOp::Mov,
        (-2, 1),
        ((0, 0xffff_ffff), (0, 0xffff_ffff)),
    ),
];

// Returns the first row whose operation has another result.
fn first_wrong_of_two(rows: &[OfTwo]) -> Result<Option<OfTwo>, Fail> {
    let few = numbers(-5, 7)?;
    for row in rows {
        let (width, op, b, want) = *row;
        let computed = of_alu(width, op, &few, &numbers(b.0, b.1)?);
        if !has_ends(&computed, want) {
            return Ok(Some(*row));
        }
    }
    Ok(None)
}

// Returns the first of these values that has other ends.
fn first_with_other_ends(rows: &[(Both, (Words, Numbers))]) -> Option<(Both, (Words, Numbers))> {
    for row in rows {
        if !has_ends(&row.0, row.1) {
            return Some(*row);
        }
    }
    None
}

// Returns the first result with other ends of an operation on the numbers from -5 to 7 or on others, or of a load.
fn first_wrong_of_one() -> Result<Option<(Both, (Words, Numbers))>, Fail> {
    let few = numbers(-5, 7)?;
    let more = numbers(-129, 7)?;
    Ok(first_with_other_ends(&[
        (of_neg(Width::W64, &Both::single(1)), ((TOP, TOP), (-1, -1))),
        (of_byte_extended(&few), ((0, TOP), (-5, 7))),
        (of_byte_extended(&more), ((0, TOP), (-128, 127))),
        (
            of_half_ordered(EndKind::Big, &few),
            ((0, 0xffff), (0, 0xffff)),
        ),
        (of_load(Size::Byte, true), ((0, TOP), (-128, 127))),
        (of_load(Size::Byte, false), ((0, 255), (0, 255))),
    ]))
}

#[test]
fn rows_of_one_operand(rt: HostRuntime) {
    assert_gives(&rt, first_wrong_of_one(), None);
}

// A test of the numbers from -5 to 7 against a word, whether it holds, and the ends of the numbers then, if any.
type Refined = (Test, bool, u64, Option<(Words, Numbers)>);

const REFINED: &[Refined] = &[
    (Test::Jslt, true, 3, Some(((0, TOP), (-5, 2)))),
    (Test::Jslt, false, 3, Some(((3, 7), (3, 7)))),
    (Test::Jsgt, true, 6, Some(((7, 7), (7, 7)))),
    (Test::Jsge, true, 8, None),
    (Test::Jlt, true, 8, Some(((0, 7), (0, 7)))),
    (Test::Jeq, true, TOP, Some(((TOP, TOP), (-1, -1)))),
    (Test::Jne, false, TOP - 5, None),
    (Test::Jset, true, 1, Some(((0, TOP), (-5, 7)))),
];

// Returns the numbers for which the test holds or not, if any.
fn refined(few: &Both, test: Test, taken: bool, b: u64) -> Option<Both> {
    Some(of_refine(Width::W64, test, taken, few, &Both::single(b))?.0)
}

// Returns the first row that is refined otherwise.
fn first_wrong_refined(rows: &[Refined]) -> Result<Option<Refined>, Fail> {
    let few = numbers(-5, 7)?;
    for row in rows {
        let (test, taken, b, want) = *row;
        if !is_as_wanted(refined(&few, test, taken, b), want) {
            return Ok(Some(*row));
        }
    }
    Ok(None)
}

#[test]
fn rows_of_two_operands(rt: HostRuntime) {
    assert_gives(&rt, first_wrong_of_two(OF_TWO), None);
    assert_gives(&rt, first_wrong_refined(REFINED), None);
}

fn joins_to(a: u64, b: u64, want: (Words, Numbers)) -> bool {
    has_ends(&joined(a, b), want)
}

#[test]
fn joins_are_hulls(rt: HostRuntime) {
    both_is_exact_theorem();
    let about: Both = joined(SIGN - 1, SIGN);
    assert_same(&rt, compares_to_full(&about), (true, false));
    assert!(rt; joins_to(SIGN - 1, SIGN, ((SIGN - 1, SIGN), (LEAST, MOST))));
    assert!(rt; joins_to(1, TOP, ((1, TOP), (-1, 1))));
}
