//! Calls each operation of a domain through its trait.
use abstract_value::Domain;
use instruction_set::{AluOp, EndKind, Size, Test, Width};

pub(crate) fn joined<D: Domain>(a: u64, b: u64) -> D {
    D::single(a).join(&D::single(b))
}

pub(crate) fn of_alu<D: Domain>(width: Width, op: AluOp, a: &D, b: &D) -> D {
    D::alu(width, op, a, b)
}

pub(crate) fn of_neg<D: Domain>(width: Width, a: &D) -> D {
    D::neg(width, a)
}

pub(crate) fn of_byte_extended<D: Domain>(a: &D) -> D {
    D::movsx(Width::W64, 8, a)
}

pub(crate) fn of_half_ordered<D: Domain>(kind: EndKind, a: &D) -> D {
    D::end(kind, 16, a)
}

pub(crate) fn of_load<D: Domain>(size: Size, signed: bool) -> D {
    D::loaded(size, signed)
}

pub(crate) fn of_refine<D: Domain>(
    width: Width,
    test: Test,
    taken: bool,
    a: &D,
    b: &D,
) -> Option<(D, D)> {
    D::refine(width, test, taken, a, b)
}

// Returns whether a value is below all words, and whether all words are below it.
pub(crate) fn compares_to_full<D: Domain>(a: &D) -> (bool, bool) {
    (a.below(&D::full()), D::full().below(a))
}
