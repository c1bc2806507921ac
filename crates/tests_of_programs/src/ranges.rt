//! Tests of ranges, with expected values by hand.
use crate::assertions::assert_same;
use crate::domain_calls::{
    compares_to_full, joined, of_alu, of_byte_extended, of_half_ordered, of_load, of_neg, of_refine,
};
use abstract_value::{Domain, Interval};
use instruction_set::{AluOp, EndKind, Size, Test, Width};

const TOP: u64 = u64::MAX;

const HALF: u64 = 0xffff_ffff;

// The least and the greatest word of a range.
type Ends = (u64, u64);

fn range(ends: Ends) -> Interval {
    joined(ends.0, ends.1)
}

// An operation of two ranges, and the ends of its result.
type OfTwo = (Width, AluOp, Ends, Ends, Ends);

const OF_TWO: &[OfTwo] = &[
    (Width::W64, AluOp::Add, (TOP - 1, TOP), (2, 3), (0, 2)),
    (Width::W64, AluOp::Sub, (1, 10), (5, 6), (0, TOP)),
    (Width::W64, AluOp::Div, (10, 20), (0, 5), (0, 20)),
    (Width::W64, AluOp::Mod, (10, 20), (3, 7), (0, 6)),
    (Width::W64, AluOp::Or, (4, 5), (1, 8), (4, 15)),
    (Width::W64, AluOp::Lsh, (1, 3), (66, 66), (4, 12)),
    (Width::W32, AluOp::Add, (HALF + 6, HALF + 6), (1, 2), (6, 7)),
    (Width::W32, AluOp::Mov, (1, 2), (5, HALF + 1), (0, HALF)),
    (Width::W32, AluOp::Arsh, (1, 1 << 31), (1, 1), (0, HALF)),
];

// Returns the first row whose operation has another result.
fn first_wrong_of_two(rows: &[OfTwo]) -> Option<OfTwo> {
    for row in rows {
        let (width, op, a, b, want) = *row;
        if of_alu(width, op, &range(a), &range(b)).bounds() != want {
            return Some(*row);
        }
    }
    None
}

fn negated(a: Ends) -> Ends {
    of_neg(Width::W32, &range(a)).bounds()
}

fn byte_extended(a: Ends) -> Ends {
    of_byte_extended(&range(a)).bounds()
}

fn half_ordered(kind: EndKind, a: Ends) -> Ends {
    of_half_ordered(kind, &range(a)).bounds()
}

// Returns how a load's values compare to all words.
fn load_to_full(size: Size, signed: bool) -> (bool, bool) {
    let loaded: Interval = of_load(size, signed);
    compares_to_full(&loaded)
}

// Returns the first ends that aren't the ones wanted, with these.
fn first_wrong_ends(rows: &[(Ends, Ends)]) -> Option<(Ends, Ends)> {
    for row in rows {
        if row.0 != row.1 {
            return Some(*row);
        }
    }
    None
}

#[test]
fn rows_of_one_operand(rt: HostRuntime) {
    let ends = [
        (negated((1, 1)), (HALF, HALF)),
        (negated((1, 2)), (0, HALF)),
        (byte_extended((1, 127)), (1, 127)),
        (byte_extended((128, 128)), (TOP - 127, TOP - 127)),
        (half_ordered(EndKind::Little, (1, 1 << 16)), (0, HALF >> 16)),
        (
            half_ordered(EndKind::Big, (0x1234, 0x1234)),
            (0x3412, 0x3412),
        ),
    ];
    assert_same(&rt, first_wrong_ends(&ends), None);
    assert_same(&rt, load_to_full(Size::Half, false), (true, false));
    assert_same(&rt, load_to_full(Size::Byte, true), (true, true));
}

// A test of two ranges, whether it holds, and the ends of both then, if any.
type Refined = (Test, bool, Ends, Ends, Option<(Ends, Ends)>);

const WIDE: Ends = (4, HALF + 1);

const REFINED: &[Refined] = &[
    (Test::Jeq, true, (1, 5), (3, 9), Some(((3, 5), (3, 5)))),
    (Test::Jne, true, (5, 6), (5, 5), Some(((6, 6), (5, 5)))),
    (Test::Jgt, true, (1, 5), (3, 9), Some(((4, 5), (3, 4)))),
    (Test::Jge, false, (4, 9), (3, 6), Some(((4, 5), (5, 6)))),
    (Test::Jle, false, (0, 9), (9, 9), None),
    (Test::Jslt, true, (4, 9), (3, 3), Some(((4, 9), (3, 3)))),
    (Test::Jlt, true, WIDE, (5, 5), Some((WIDE, (5, 5)))),
];

// Returns the ends of both ranges where the test holds or not, if any.
fn refined(test: Test, taken: bool, a: Ends, b: Ends) -> Option<(Ends, Ends)> {
    let (left, right) = of_refine(Width::W32, test, taken, &range(a), &range(b))?;
    Some((left.bounds(), right.bounds()))
}

// Returns the first row that is refined otherwise.
fn first_wrong_refined(rows: &[Refined]) -> Option<Refined> {
    for row in rows {
        let (test, taken, a, b, want) = *row;
        if refined(test, taken, a, b) != want {
            return Some(*row);
        }
    }
    None
}

#[test]
fn rows_of_two_operands(rt: HostRuntime) {
    assert_same(&rt, first_wrong_of_two(OF_TWO), None);
    assert_same(&rt, first_wrong_refined(REFINED), None);
}
