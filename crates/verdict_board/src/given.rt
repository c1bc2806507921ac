//! The rule of the draw words, and the names of its steps.
ghost use Rattle.std.specs.Prelude.{◌+◌, ◌-◌, [], ◌++◌};
ghost use Rattle.verdict_board.specs.model.Given.{hand, Given, Drew, Counted};

use atomic_table::{Join, Play, Split, TableRule};
use std::collections::LinkedList;

// The draws of a seat, and its parts of the right to know all draws. A type of the proof: no value of it exists.
pub(crate) struct Hand {
    pub parts: u64,
    pub drawn: LinkedList<(u64, u64)>,
}

// Each number below a round's word was drawn in that round, once.
pub(crate) struct GivenOnce;

impl TableRule<(), Hand, u64> for GivenOnce {
    ghost holds = { λ seats. Given seats };

    ghost first = { λ seats. hand seats [] };
}

// A seat takes the next numbers of a round.
pub(crate) struct Took;

impl Play<(), Hand> for Took {
    ghost then = { Drew };
}

// The owner of every part reads a word.
pub(crate) struct Looked;

impl Play<(), Hand> for Looked {
    ghost then = { Counted };
}

// A new seat has one part, of a hand that has drawn nothing.
pub(crate) struct OnePart;

impl Split<Hand> for OnePart {
    ghost left = { λ v. hand (v.parts - 1) [] };

    ghost right = { λ v. hand 1 [] };
}

// Two hands are made one.
pub(crate) struct Together;

impl Join<Hand> for Together {
    ghost both = { λ v w. hand (v.parts + w.parts) (v.drawn ++ w.drawn) };

    ghost spent = { hand 0 [] };
}
