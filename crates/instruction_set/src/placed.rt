//! The instructions of code with their first slots.
use crate::insn::Insn;
use std::marker::Model;

/// Iterates over the instructions of code, each with its first slot.
#[derive(Debug, Drop)]
pub struct PlacedInsns<'a> {
    pub(crate) slot: usize,
    pub(crate) insns: &'a [Insn],
}

impl<'a> Model for PlacedInsns<'a> {
    ghost use Rattle.std.specs.Prelude.{ℕ, ◌+◌, ◌≤◌, List, sum_by};
    ghost use Rattle.instruction_set.specs.declared.insn.Insn.{Insn};
    ghost use Rattle.instruction_set.specs.Machine.{slots_of};
    ghost use Rattle.instruction_set.specs.Slots.{max_slots, placed_from};

    ghost Value = { List (ℕ × Insn) };

    ghost view = { λ placed. placed_from placed.slot placed.insns.now };

    ghost invariant = { λ placed. placed.slot + sum_by slots_of placed.insns.now ≤ max_slots };
}

impl<'a> Iterator for PlacedInsns<'a> {
    type Item = (usize, Insn);

    ghost use Rattle.std.specs.Iterator.{YieldsFirst, item_count};

    ghost next_gives = { YieldsFirst (λ placed. placed) };

    ghost remaining = { item_count (λ placed. placed) };

    fn next(&mut self) -> Option<(usize, Insn)> {
        let (&insn, rest) = self.insns.split_first()?;
        let slot = self.slot;
        self.slot += insn.slots();
        self.insns = rest;
        Some((slot, insn))
    }
}
