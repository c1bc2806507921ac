//! Accesses to memory, and the rules 21 to 25.
ghost use Rattle.std.specs.Prelude.{◌≡◌, ◌≤◌, ◌+ℤ◌, ◌-ℤ◌, ◌+◌, pos, IsTrue, MatchOption};
ghost use Rattle.instruction_set.specs.Machine.{bytes_of};
ghost use Rattle.abstract_value.specs.StackBytes.{is_written};
ghost use Rattle.verifier.specs.Rules.{whole, access_of, reach_of, is_inside, in_stack, stack_index, inside_record, spares_record, inside_stack, finds_written};
ghost use Rattle.verifier.specs.model.Accesses.{as_access, as_accesses, AccessPasses, AccessFails};

use crate::kinds::is_scalar;
use crate::rule::Rule;
use abstract_value::{RegState, Span, StackState};
use instruction_set::{Insn, Register, STACK_LEN, Size};

/// An access to memory: the register of its address, the offset, and the size.
#[derive(Clone, Copy)]
pub(crate) struct Access {
    pub(crate) base: Register,
    pub(crate) offset: i16,
    pub(crate) size: Size,
    pub(crate) is_store: bool,
}

/// Returns the access of an instruction, if any.
pub(crate) fn access_of(insn: &Insn) -> Option<Access>
    ensures { as_accesses result ≡ access_of insn.now }
{
    let (base, offset, size, is_store) = match *insn {
        Insn::Load {
            size,
            base,
            offset,
            ..
        } => (base, offset, size, false),
        Insn::LoadSx {
            size,
            base,
            offset,
            ..
        } => (base, offset, size, false),
        Insn::Store {
            size,
            base,
            offset,
            ..
        } => (base, offset, size, true),
        Insn::StoreImm {
            size,
            base,
            offset,
            ..
        } => (base, offset, size, true),
        _ => return None,
    };
    Some(Access {
        base,
        offset,
        size,
        is_store,
    })
}

/// Returns the number of bytes that a load or a store moves.
pub(crate) fn bytes_of(size: Size) -> usize
    ensures value { result ≡ bytes_of size }
    ensures few { result ≤ 8 }
{
    match size {
        Size::Byte => 1,
        Size::Half => 2,
        Size::Word => 4,
        Size::Double => 8,
    }
}

// Returns the offsets of the first byte that an access may reach through an address and just past the last.
fn reach(span: Span, offset: i16, size: Size) -> (i32, i32)
    ensures first { result.0 ≡ (reach_of span offset size).lo }
    ensures end { result.1 ≡ (reach_of span offset size).hi +ℤ pos (bytes_of size) }
{
    let offset = offset as i32;
    let bytes = bytes_of(size) as i32;
    (span.lo + offset, span.hi + offset + bytes)
}

/// Returns the first stack byte that an access may reach, counted from the lowest, and the number of bytes from there.
pub(crate) fn stack_bytes(span: Span, offset: i16, size: Size) -> (usize, usize)
    requires { IsTrue (in_stack (reach_of span offset size)) }
    ensures first { result.0 ≡ stack_index (reach_of span offset size).lo }
    ensures count { result.1 ≡ whole ((reach_of span offset size).hi -ℤ (reach_of span offset size).lo)
        + bytes_of size }
    ensures inside { result.0 + result.1 ≤ STACK_LEN }
{
    let (start, _) = reach(span, offset, size);
    let first = (start + STACK_LEN as i32) as usize;
    (first, (span.hi - span.lo) as usize + bytes_of(size))
}

impl Access {
    // Returns whether all bytes that it may reach lie from `first` on and before `end`.
    fn is_within(&self, span: Span, first: i32, end: i32) -> bool
        ensures { result ≡ is_inside first end (reach_of span self.now.offset self.now.size) }
    {
        let (start, stop) = reach(span, self.offset, self.size);
        first <= start && stop <= end
    }

    fn is_inside_record<D>(&self, base: &RegState<D>, context_len: u16) -> bool
        ensures { result ≡ inside_record context_len base.now (as_access self.now) }
    {
        match base {
            RegState::Record(span) => self.is_within(*span, 0, context_len as i32),
            _ => true,
        }
    }

    fn spares_record<D>(&self, base: &RegState<D>) -> bool
        ensures { result ≡ spares_record base.now (as_access self.now) }
    {
        match base {
            RegState::Record(_) => !self.is_store,
            _ => true,
        }
    }

    fn is_inside_stack<D>(&self, base: &RegState<D>) -> bool
        ensures { result ≡ inside_stack base.now (as_access self.now) }
    {
        match base {
            RegState::Stack(span) => self.is_within(*span, -(STACK_LEN as i32), 0),
            _ => true,
        }
    }

    fn finds_written<D>(&self, base: &RegState<D>, stack: &StackState) -> bool
        requires { IsTrue (inside_stack base.now (as_access self.now)) }
        ensures { result ≡ finds_written (is_written stack.now) base.now (as_access self.now) }
    {
        match base {
            RegState::Stack(span) if !self.is_store => {
                let (first, count) = stack_bytes(*span, self.offset, self.size);
                stack.all_written(first, count)
            }
            _ => true,
        }
    }

    /// Returns the first of the rules 21 to 25 that it fails, through a register in this state.
    pub(crate) fn check<D>(
        &self,
        base: &RegState<D>,
        stack: &StackState,
        context_len: u16,
    ) -> Option<Rule>
        ensures { MatchOption result (AccessPasses context_len (is_written stack.now) base.now (as_access self.now))
            (λ rule. AccessFails context_len (is_written stack.now) base.now (as_access self.now) rule) }
    {
        if !self.is_inside_record(base, context_len) {
            Some(Rule::OutsideRecord)
        } else if !self.spares_record(base) {
            Some(Rule::WritesRecord)
        } else if !self.is_inside_stack(base) {
            Some(Rule::OutsideStack)
        } else if !self.finds_written(base, stack) {
            Some(Rule::UnwrittenStack)
        } else if is_scalar(base) {
            Some(Rule::ScalarAddress)
        } else {
            None
        }
    }
}
