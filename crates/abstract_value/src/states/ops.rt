//! Operations on abstract states, and the law of their order.
ghost use Rattle.std.specs.Prelude.{◌≡◌, ℕ, ◌<◌, ◌≤◌, ◌+◌, ◌≤ℤ◌};
ghost use Rattle.abstract_value.specs.Offsets.{least_offset, greatest_offset};
ghost use Rattle.abstract_value.specs.StackBytes.{is_written, all_written, with_marks};
ghost use Rattle.abstract_value.specs.StateOrder.{StateOrder};
ghost use Rattle.abstract_value.specs.States.{make_span, span_join, reg_join, View, view, first_view, view_join, with_register, with_written};

use super::{RegState, Span, State};
use crate::{Domain, StackState};
use instruction_set::{Register, STACK_LEN};

impl Span {
    /// Creates the span of the offsets from `lo` to `hi`.
    pub fn new(lo: i32, hi: i32) -> Span
        requires ordered { lo ≤ℤ hi }
        requires above { least_offset ≤ℤ lo }
        requires below { hi ≤ℤ greatest_offset }
        ensures { result ≡ make_span lo hi }
    {
        Span { lo, hi }
    }

    // Returns the least span that contains both.
    fn join(&self, other: &Span) -> Span
        ensures { result ≡ span_join self.now other.now }
    {
        Span::new(self.lo.min(other.lo), self.hi.max(other.hi))
    }
}

impl<D: Domain> RegState<D> {
    /// Returns the least value above both: the join within one kind, `Unreadable` across kinds.
    pub fn join(&self, other: &RegState<D>) -> RegState<D>
        ensures { result ≡ reg_join D.ops self.now other.now }
    {
        match (self, other) {
            (RegState::Scalar(a), RegState::Scalar(b)) => RegState::Scalar(a.join(b)),
            (RegState::Record(a), RegState::Record(b)) => RegState::Record(a.join(b)),
            (RegState::Stack(a), RegState::Stack(b)) => RegState::Stack(a.join(b)),
            _ => RegState::Unreadable,
        }
    }
}

impl<D: Domain> State<D> {
    /// Creates the state at entry: R1 is the record's address, R10 the address just past the stack.
    pub fn entry() -> State<D>
        ensures { view result ≡ first_view }
    {
        let mut registers = [RegState::Unreadable; 11];
        registers[1] = RegState::Record(Span::new(0, 0));
        registers[10] = RegState::Stack(Span::new(0, 0));
        State {
            registers,
            stack: StackState::empty(),
        }
    }

    /// Returns the possible contents of a register.
    pub fn register(&self, register: Register) -> RegState<D>
        ensures { result ≡ (view self.now).registers register.number }
    {
        self.registers[register.number as usize]
    }

    /// Sets the possible contents of a register.
    pub fn set_register(&mut self, register: Register, state: RegState<D>)
        ensures { view self.new ≡ with_register (view self.old) register.number state }
    {
        self.registers[register.number as usize] = state;
    }

    /// Returns the written stack bytes.
    pub fn stack(&self) -> &StackState
        ensures { is_written result.now ≡ (view self.now).written }
    {
        &self.stack
    }

    /// Marks `count` stack bytes from `from` on as written.
    pub fn mark(&mut self, from: usize, count: usize)
        requires { from + count ≤ STACK_LEN }
        ensures { view self.new ≡ with_written (view self.old) (with_marks (view self.old).written from count) }
    {
        self.stack.mark(from, count);
    }

    /// Joins `other` into this state.
    pub fn join(&mut self, other: &State<D>)
        ensures { view self.new ≡ view_join D.ops (view self.old) (view other.now) }
    {
        for i in 0..11 {
            self.join_register(i, other);
        }
        self.stack.intersect(&other.stack);
    }

    // Joins one register of `other` into this state.
    fn join_register(&mut self, i: usize, other: &State<D>)
        requires { i < 11 }
        ensures { view self.new ≡ with_register (view self.old) i
            (reg_join D.ops ((view self.old).registers i) ((view other.now).registers i)) }
    {
        self.registers[i] = self.registers[i].join(&other.registers[i]);
    }
}

/// States that `below` orders states over any domain, and that their join is the least state above both. Does nothing at
/// run time.
pub fn state_order_theorem<D: Domain>()
    ensures { StateOrder D.ops }
{}
