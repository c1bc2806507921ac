//! Passes: what one caller has seen of a board.
ghost use Rattle.std.specs.Prelude.{◌≡◌, ℕ, ◌<◌, ◌≤◌, List, map, length, slice_index, IfSome};
ghost use Rattle.std.specs.declared.option.Option.TheVariants.{None, Some};
ghost use Rattle.once_cell.specs.Once.{cell_name};
ghost use Rattle.verdict_board.specs.Boards.{word_seen, seen, LooksAt};
ghost use Rattle.verdict_board.specs.Views.{place_of, names, words};

use crate::site::Site;
use once_cell::race::{Note, OnceBox};
use std::alloc::Global;
use std::fmt;
use std::marker::Model;

/// What one caller has seen of a board. Contracts see it as the ruling, if any, that it has seen of each clash.
pub struct Pass<'p> {
    site: Site<'p>,
    notes: Vec<Note<u64>>,
}

// Written out, so that a drop is one call in the proofs of callers.
impl<'p> Drop for Pass<'p> {
    fn drop(self) {
        let Pass { site: _, notes: _ } = self;
    }
}

impl<'p> Model for Pass<'p> {
    ghost use Rattle.verdict_board.specs.Boards.{Pass};
    ghost use Rattle.verdict_board.specs.Views.{pass_of};

    ghost Value = { Pass };

    ghost view = { λ p. pass_of p.site.number p.site.seed p.site.clashes.now p.notes.items };
}

impl<'p> fmt::Debug for Pass<'p> {
    fn fmt<W: fmt::Write>(&self, f: &mut fmt::Formatter<W>) -> fmt::Result {
        f.debug_struct("Pass")
            .field("number", &self.site.number)
            .field("seed", &self.site.seed)
            .finish()
    }
}

impl<'p> Pass<'p> {
    pub(crate) fn new(site: Site<'p>, notes: Vec<Note<u64>>) -> Pass<'p>
        ensures place { result.place
            ≡ place_of site.entry.number site.entry.seed site.entry.clashes.now (names notes.items) }
        ensures words { result.words ≡ words notes.items }
    {
        Pass { site, notes }
    }

    // Returns the word of clash k, if any.
    pub(crate) fn look(&mut self, cell: &OnceBox<u64>, k: usize) -> Option<u64>
        requires inside { k < length self.old.place.cells }
        requires cell { slice_index self.old.place.cells k ≡ cell_name cell.now }
        ensures seen { result ≡ word_seen self.new k }
        ensures looks { LooksAt k self.old self.new }
    {
        let found = cell.get_as(&mut self.notes[k])?;
        Some(*found)
    }

    // Returns the word of clash k after offering this one. Returns none only if an allocation fails.
    pub(crate) fn offer(
        &mut self,
        alloc: Global,
        cell: &OnceBox<u64>,
        k: usize,
        word: u64,
    ) -> Option<u64>
        requires inside { k < length self.old.place.cells }
        requires cell { slice_index self.old.place.cells k ≡ cell_name cell.now }
        ensures seen { result ≡ word_seen self.new k }
        ensures looks { LooksAt k self.old self.new }
    {
        let Ok(found) = cell.get_or_try_init_as(move || Box::new(alloc, word), &mut self.notes[k])
        else {
            return None;
        };
        Some(*found)
    }

    /// States that two passes of one board which have both seen clash `k` have seen the same ruling of it.
    ///
    /// Does nothing at run time: its contract is the law.
    pub fn agree(&mut self, other: &mut Pass<'p>, k: u32)
        requires { self.old.place ≡ other.old.place }
        ensures same { (self.new ≡ self.old) × (other.new ≡ other.old) }
        ensures agree { IfSome (seen self.old k) (λ r. IfSome (seen other.old k) (λ s. r ≡ s)) }
    {
        let place = k as usize;
        if place < self.notes.len() && place < other.notes.len() {
            let note = other.notes[place].again();
            self.notes[place].compare(note);
        }
    }
}
