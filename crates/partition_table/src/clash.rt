//! Clashes: names that two tables register differently.
ghost use Rattle.std.specs.Prelude.{◌≡◌, ◌≤◌, ◌↔◌, [], if◌then◌else◌, length, slice_get, IfOk, IsTrue, All};
ghost use Rattle.std.specs.Option.{option_map};
ghost use Rattle.std.specs.Arc.{arc_value};
ghost use Rattle.std.specs.Slice.Iter.{iter_rest};
ghost use Rattle.clash_record.specs.Record.{clash_bytes};
ghost use Rattle.partition_table.specs.Tables.{most_names};
ghost use Rattle.partition_table.specs.Tables as tables;
ghost use Rattle.partition_table.specs.model.Coding.{IsCoded};

use crate::both::BothPrograms;
use crate::shared_registration::SharedRegistration;
use clash_record::{ClashRecord, Contender, Facts, Name, Registration, ResolverId, record};
use interpreter::Scratch;
use std::alloc::AllocError;
use std::marker::Model;
use std::slice;
use std::sync::Arc;
use verifier::Verified;

// The facts of the two halves of a comparison, which all its clashes share.
#[derive(Clone, Copy, Debug)]
pub(crate) struct HalfFacts {
    pub(crate) a: Facts,
    pub(crate) b: Facts,
}

// The two registrations of a name, the lesser first, and whether half A has that one.
#[derive(Debug, Drop)]
pub(crate) struct Rivals {
    first: SharedRegistration,
    second: SharedRegistration,
    is_first_of_a: bool,
}

impl Rivals {
    // Adds an owner of each registration.
    pub(crate) fn of(
        first: &SharedRegistration,
        second: &SharedRegistration,
        is_first_of_a: bool,
    ) -> Result<Rivals, AllocError>
        ensures { IfOk result (λ rivals. rivals
            ≡ record { first = first.now; second = second.now; is_first_of_a = is_first_of_a }) }
    {
        Ok(Rivals {
            first: first.clone()?,
            second: second.clone()?,
            is_first_of_a,
        })
    }
}

/// A name that two tables register differently, with everything that judging it reads.
///
/// The lesser registration is first, and its resolver judges.
#[derive(Debug)]
pub struct Clash {
    name: Name,
    is_first_of_a: bool,
    first: SharedRegistration,
    second: SharedRegistration,
    facts: Arc<HalfFacts>,
    program: Option<Arc<Verified>>,
}

// Written out, so that a drop is one call in the proofs of callers.
impl Drop for Clash {
    fn drop(self) {
        let Clash {
            name: _,
            is_first_of_a: _,
            first: _,
            second: _,
            facts: _,
            program: _,
        } = self;
    }
}

impl Model for Clash {
    ghost use Rattle.std.specs.Prelude.{if◌then◌else◌};
    ghost use Rattle.std.specs.Option.{option_map};
    ghost use Rattle.std.specs.Arc.{arc_value};
    ghost use Rattle.partition_table.specs.Tables.{Clash};
    ghost use Rattle.partition_table.specs.Views.{coded_clash};

    ghost Value = { Clash };

    ghost coded = { coded_clash };

    ghost view = { λ c. record {
      name = c.name;
      first = c.first;
      second = c.second;
      of_first = if c.is_first_of_a then (arc_value c.facts).a else (arc_value c.facts).b;
      of_second = if c.is_first_of_a then (arc_value c.facts).b else (arc_value c.facts).a;
      code = option_map arc_value c.program;
    } };
}

impl Clash {
    // Returns the clash of a name with its two registrations and the facts of both halves.
    #[inline]
    pub(crate) fn new(
        name: Name,
        rivals: Rivals,
        facts: Arc<HalfFacts>,
        program: Option<Arc<Verified>>,
    ) -> Clash
        ensures { result ≡ record {
          name = name;
          first = rivals.first;
          second = rivals.second;
          of_first = if rivals.is_first_of_a then (arc_value facts).a else (arc_value facts).b;
          of_second = if rivals.is_first_of_a then (arc_value facts).b else (arc_value facts).a;
          code = option_map arc_value program;
        } }
    {
        let Rivals {
            first,
            second,
            is_first_of_a,
        } = rivals;
        Clash {
            name,
            is_first_of_a,
            first,
            second,
            facts,
            program,
        }
    }

    /// Returns the name.
    pub fn name(&self) -> &Name
        ensures { result.now ≡ self.now.name }
    {
        &self.name
    }

    /// Returns the lesser registration.
    pub fn first(&self) -> &Registration
        ensures { result.now ≡ self.now.first }
    {
        &self.first
    }

    /// Returns the greater registration.
    pub fn second(&self) -> &Registration
        ensures { result.now ≡ self.now.second }
    {
        &self.second
    }

    // Returns the lesser registration, which the table that has it shares.
    pub(crate) fn shared_first(&self) -> &SharedRegistration
        ensures { result.now ≡ self.now.first }
    {
        &self.first
    }

    // Returns the greater registration, which the table that has it shares.
    pub(crate) fn shared_second(&self) -> &SharedRegistration
        ensures { result.now ≡ self.now.second }
    {
        &self.second
    }

    /// Returns the size and uptime of the half that holds the lesser registration.
    pub fn of_first(&self) -> Facts
        ensures { result ≡ self.now.of_first }
    {
        if self.is_first_of_a {
            self.facts.a
        } else {
            self.facts.b
        }
    }

    /// Returns the size and uptime of the half that holds the greater registration.
    pub fn of_second(&self) -> Facts
        ensures { result ≡ self.now.of_second }
    {
        if self.is_first_of_a {
            self.facts.b
        } else {
            self.facts.a
        }
    }

    /// Returns the resolver that judges: that of the lesser registration.
    pub fn resolver(&self) -> ResolverId
        ensures { result ≡ self.now.first.resolver }
    {
        self.first.resolver
    }

    /// Returns the program that judges, if the resolver is a program.
    pub fn program(&self) -> Option<&Arc<Verified>>
        ensures { option_map (λ p. arc_value p.now) result ≡ self.now.code }
    {
        self.program.as_ref()
    }

    /// Returns the record that a program reads to judge the clash at this word.
    pub fn record(&self, word: u64) -> ClashRecord
        ensures { result ≡ clash_bytes self.now.name self.now.first self.now.second word self.now.of_first
            self.now.of_second }
    {
        record(
            &self.name,
            self.first(),
            self.second(),
            word,
            self.of_first(),
            self.of_second(),
        )
    }

    // Writes the record of the clash at this word to the place where runs read it.
    pub(crate) fn write_record(&self, scratch: &mut Scratch, word: u64)
        ensures { scratch.new ≡ clash_bytes self.now.name self.now.first self.now.second word self.now.of_first
            self.now.of_second }
    {
        let first = Contender {
            registration: *self.first,
            facts: self.of_first(),
        };
        let second = Contender {
            registration: *self.second,
            facts: self.of_second(),
        };
        scratch.write_record(&self.name, &first, &second, word);
    }
}

/// The clashes of two tables, in the order of names. Contracts see them as a list.
#[derive(Debug)]
pub struct ClashList {
    clashes: Vec<Clash>,
    programs: BothPrograms,
}

// Written out, so that a drop is one call in the proofs of callers.
impl Drop for ClashList {
    fn drop(self) {
        let ClashList {
            clashes: _,
            programs: _,
        } = self;
    }
}

impl Model for ClashList {
    ghost use Rattle.std.specs.Prelude.{◌≤◌, List, length, All};
    ghost use Rattle.std.specs.Coded.{coded_list};
    ghost use Rattle.partition_table.specs.Tables.{Clash, most_names};
    ghost use Rattle.partition_table.specs.model.Coding.{IsCoded};
    ghost use Rattle.partition_table.specs.Views.{coded_clash};

    ghost Value = { List Clash };

    ghost coded = { coded_list coded_clash };

    ghost view = { λ l. l.clashes.items };

    ghost invariant = { λ l. (length l.clashes.items ≤ most_names) × All (IsCoded l.programs) l.clashes.items };
}

impl ClashList {
    // Returns the list of these clashes, of two tables with these programs.
    pub(crate) fn new(clashes: Vec<Clash>, programs: BothPrograms) -> ClashList
        requires few { length clashes.items ≤ most_names }
        requires coded { All (IsCoded programs) clashes.items }
        ensures { result ≡ clashes.items }
    {
        ClashList { clashes, programs }
    }

    // Returns the clashes.
    pub(crate) fn clashes(&self) -> &[Clash]
        ensures { result.now ≡ self.now }
    {
        &self.clashes
    }

    // Returns the programs of the two tables. Each clash has its code from one of them.
    pub(crate) fn programs(&self) -> &BothPrograms
        ensures { All (IsCoded result.now) self.now }
    {
        &self.programs
    }

    /// Returns the number of clashes, at most 1,048,576.
    pub fn len(&self) -> usize
        ensures count { result ≡ length self.now }
        ensures few { result ≤ most_names }
    {
        self.clashes.len()
    }

    /// Checks whether the list is empty.
    pub fn is_empty(&self) -> bool
        ensures { IsTrue result ↔ (self.now ≡ []) }
    {
        self.clashes.is_empty()
    }

    /// Returns clash `k`, counted from 0.
    pub fn get(&self, k: u32) -> Option<&Clash>
        ensures { option_map (λ c. c.now) result ≡ slice_get self.now k }
    {
        self.clashes.get(k as usize)
    }

    /// Iterates over the clashes in their order.
    pub fn iter(&self) -> slice::Iter<'_, Clash>
        ensures { iter_rest result ≡ self.entry.now }
    {
        self.clashes.iter()
    }
}

// Adds an owner of the program, if there is one.
pub(crate) fn one_more_owner(
    program: Option<&Arc<Verified>>,
) -> Result<Option<Arc<Verified>>, AllocError>
    ensures { IfOk result (λ owned. option_map arc_value owned ≡ option_map (λ p. arc_value p.now) program.entry) }
{
    match program {
        Some(program) => Ok(Some(program.clone()?)),
        None => Ok(None),
    }
}
