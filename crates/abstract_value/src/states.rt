//! Abstract states: the possible contents of each register, and the written stack bytes.
ghost use Rattle.std.specs.Prelude.{◌≡◌, ◌≤ℤ◌, length};
ghost use Rattle.abstract_value.specs.Offsets.{least_offset, greatest_offset};

mod ops;

use crate::StackState;
pub use ops::state_order_theorem;
use std::alloc::AllocError;

/// Offsets in bytes from `lo` to `hi` inclusive, within -65,536 to 65,536.
#[derive(Clone, Copy, Debug, PartialEq, Eq)]
pub struct Span {
    /// The least offset.
    pub lo: i32,
    /// The greatest offset.
    pub hi: i32,
    ghost ordered: { lo ≤ℤ hi },
    ghost near_below: { least_offset ≤ℤ lo },
    ghost near_above: { hi ≤ℤ greatest_offset },
}

/// The possible contents of a register.
#[derive(Clone, Copy, Debug)]
pub enum RegState<D> {
    /// A number.
    Scalar(D),
    /// The address of the record plus an offset.
    Record(Span),
    /// The address just past the stack plus an offset.
    Stack(Span),
    /// Unreadable: unset, or of several kinds.
    Unreadable,
}

/// The possible contents of R0 to R10, and the written stack bytes.
#[derive(Copy, Debug)]
pub struct State<D> {
    registers: [RegState<D>; 11],
    stack: StackState,
    ghost eleven: { length registers ≡ 11 },
}

impl<D: Copy> Clone for State<D> {
    ghost is_clone = { λ a b. a ≡ b };

    ghost is_infallible = { λ _. Unit {0} };

    fn clone(&self) -> Result<State<D>, AllocError> {
        Ok(*self)
    }
}
