//! Tests of written stack bytes, joined states and pending states.
ghost use Rattle.std.specs.Prelude.{◌≡◌, ◌<◌};
ghost use Rattle.abstract_value.specs.Pending.{room};

use crate::assertions::{assert_gives, assert_same};
use abstract_value::{
    Domain, Interval, Pending, RegState, Span, StackState, State, state_order_theorem,
};
use instruction_set::Register;
use std::alloc::Global;
use std::test::Fail;

// Returns whether the bytes next to eight marked ones are written; then, of what is marked in another stack too,
// whether it is written, and whether the bytes next to it are.
fn marked_in_words() -> ([bool; 2], bool, [bool; 2]) {
    let mut stack = StackState::empty();
    stack.mark(60, 8);
    let beside = [stack.is_written(68), stack.all_written(59, 8)];
    let mut other = StackState::empty();
    other.mark(64, 8);
    stack.intersect(&other);
    let left = [stack.is_written(63), stack.is_written(68)];
    (beside, stack.all_written(64, 4), left)
}

#[test]
fn marks_at_the_edges_of_words(rt: HostRuntime) {
    assert_same(&rt, marked_in_words(), ([false; 2], true, [false; 2]));
}

fn offsets<D: Domain>(state: &RegState<D>) -> (u8, i32, i32) {
    match state {
        RegState::Scalar(_) => (0, 0, 0),
        RegState::Record(span) => (1, span.lo, span.hi),
        RegState::Stack(span) => (2, span.lo, span.hi),
        RegState::Unreadable => (3, 0, 0),
    }
}

// Returns R10 of the first state; then R1, R10 and whether a byte of the stack is written in the join of a state that
// wrote all three with the first.
fn joined() -> ((u8, i32, i32), (u8, i32, i32), (u8, i32, i32), bool) {
    let (r1, r10) = (Register { number: 1 }, Register { number: 10 });
    let mut state = State::<Interval>::entry();
    let before = offsets(&state.register(r10));
    state.set_register(r1, RegState::Record(Span::new(8, 16)));
    state.set_register(r10, RegState::Scalar(Interval::single(7)));
    state.mark(504, 8);
    state.join(&State::entry());
    let (first, tenth) = (state.register(r1), state.register(r10));
    let is_written = state.stack().is_written(504);
    (before, offsets(&first), offsets(&tenth), is_written)
}

#[test]
fn states_join(rt: HostRuntime) {
    state_order_theorem::<Interval>();
    assert_same(&rt, joined(), ((2, 0, 0), (1, 0, 16), (3, 0, 0), false));
}

// Puts the state at the entry of a program at a slot.
fn put_entry<D: Domain>(alloc: Global, pending: &mut Pending<D>, at: usize) -> Result<(), Fail>
    requires { at < room pending.old }
    ensures { room pending.new ≡ room pending.old }
{
    pending.put(at, Box::new(alloc, State::entry())?);
    Ok(())
}

// Takes the state of a slot, and returns whether it had one.
fn takes<D: Domain>(pending: &mut Pending<D>, at: usize) -> bool
    requires { at < room pending.old }
    ensures { room pending.new ≡ room pending.old }
{
    pending.take(at).is_some()
}

// Returns whether states are held only for the slots that got one and weren't visited: slots 1 and 2 get one and are
// visited, then slot 0 gets one.
fn holds_two<D: Domain>(alloc: Global, pending: &mut Pending<D>) -> Result<bool, Fail>
    requires { 2 < room pending.old }
{
    put_entry(alloc, pending, 1)?;
    put_entry(alloc, pending, 2)?;
    put_entry(alloc, pending, 2)?;
    let passed = takes(pending, 1) && takes(pending, 2);
    put_entry(alloc, pending, 0)?;
    Ok(passed && !takes(pending, 1))
}

// Returns the same of three new slots, and the peak of the states held.
fn peak_of_two<D: Domain>(alloc: Global) -> Result<(bool, u32), Fail> {
    let mut pending = Pending::<D>::new(alloc, 3)?;
    let passed = holds_two(alloc, &mut pending)?;
    Ok((passed, pending.peak()))
}

#[test]
fn states_wait(rt: HostRuntime) {
    assert_gives(&rt, peak_of_two::<Interval>(rt.alloc()), (true, 2));
}
