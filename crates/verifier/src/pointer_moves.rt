//! Address arithmetic.
ghost use Rattle.std.specs.Prelude.{◌≡◌, ◌-◌, ◌^◌, ◌≤◌, ◌-ℤ◌, ◌≤ℤ◌, pos, negsuc, Some, None, IfSome, if◌then◌else◌};
ghost use Rattle.abstract_value.specs.States.{make_span};
ghost use Rattle.verifier.specs.Rules.{steps_of, is_near, moved_span, sum_in_range, to_record, to_stack, sum_of};

use abstract_value::{Domain, RegState, Span};
use instruction_set::{AluOp, Width};

// Returns a word just below 2 ^ 64 as the negative number that it represents.
fn below_zero(word: u64) -> i32
    requires { 2 ^ 64 - 65536 ≤ word }
    ensures { result ≡ pos word -ℤ pos (2 ^ 64) }
{
    -1 - (u64::MAX - word) as i32
}

// Returns the least and the greatest step by which a number moves an address, if both are small.
fn steps_of<D: Domain>(number: &D) -> Option<(i32, i32)>
    ensures value { result ≡ steps_of D.ops number.now }
    ensures small { IfSome result (λ steps. (negsuc 65535 ≤ℤ steps.0) × (steps.0 ≤ℤ steps.1) × (steps.1 ≤ℤ pos 65535)) }
{
    let (low, high) = number.bounds();
    if high <= 65_535 {
        Some((low as i32, high as i32))
    } else if u64::MAX - 65_535 <= low {
        Some((below_zero(low), below_zero(high)))
    } else {
        None
    }
}

// Returns the offsets from `lo` to `hi`, if they are in range.
fn span_in_range(lo: i32, hi: i32) -> Option<Span>
    requires { lo ≤ℤ hi }
    ensures { result ≡ (if is_near lo hi then Some (make_span lo hi) else None) }
{
    if -65_536 <= lo && hi <= 65_536 {
        Some(Span::new(lo, hi))
    } else {
        None
    }
}

/// Returns the offsets of an address moved by a number, if they are in range.
pub(crate) fn moved_span<D: Domain>(op: AluOp, span: Span, number: &D) -> Option<Span>
    ensures { result ≡ moved_span D.ops op span number.now }
{
    let (least, greatest) = steps_of(number)?;
    match op {
        AluOp::Sub => span_in_range(span.lo - greatest, span.hi - least),
        _ => span_in_range(span.lo + least, span.hi + greatest),
    }
}

/// Returns whether a sum or a difference of 64 bits keeps an address in range.
pub(crate) fn sum_in_range<D: Domain>(op: AluOp, a: &RegState<D>, b: &RegState<D>) -> bool
    ensures { result ≡ sum_in_range D.ops op a.now b.now }
{
    match (op, a, b) {
        (_, RegState::Record(a), RegState::Scalar(b)) => moved_span(op, *a, b).is_some(),
        (_, RegState::Stack(a), RegState::Scalar(b)) => moved_span(op, *a, b).is_some(),
        (AluOp::Add, RegState::Scalar(a), RegState::Record(b)) => moved_span(op, *b, a).is_some(),
        (AluOp::Add, RegState::Scalar(a), RegState::Stack(b)) => moved_span(op, *b, a).is_some(),
        _ => true,
    }
}

fn to_record<D>(span: Option<Span>) -> RegState<D>
    ensures { result ≡ to_record span }
{
    match span {
        Some(span) => RegState::Record(span),
        None => RegState::Unreadable,
    }
}

fn to_stack<D>(span: Option<Span>) -> RegState<D>
    ensures { result ≡ to_stack span }
{
    match span {
        Some(span) => RegState::Stack(span),
        None => RegState::Unreadable,
    }
}

/// Returns a sum or a difference of 64 bits, of numbers or of an address and a number.
pub(crate) fn sum_of<D: Domain>(op: AluOp, a: &RegState<D>, b: &RegState<D>) -> RegState<D>
    ensures { result ≡ sum_of D.ops op a.now b.now }
{
    match (op, a, b) {
        (_, RegState::Scalar(a), RegState::Scalar(b)) => {
            RegState::Scalar(D::alu(Width::W64, op, a, b))
        }
        (_, RegState::Record(a), RegState::Scalar(b)) => to_record(moved_span(op, *a, b)),
        (_, RegState::Stack(a), RegState::Scalar(b)) => to_stack(moved_span(op, *a, b)),
        (AluOp::Add, RegState::Scalar(a), RegState::Record(b)) => to_record(moved_span(op, *b, a)),
        (AluOp::Add, RegState::Scalar(a), RegState::Stack(b)) => to_stack(moved_span(op, *b, a)),
        _ => RegState::Unreadable,
    }
}
