//! The clashes of two tables with their answers, taken in the order of names.
ghost use Rattle.std.specs.Prelude.{◌≡◌};
ghost use Rattle.std.specs.Option.{option_map};
ghost use Rattle.std.specs.Slice.Iter.{iter_rest};
ghost use Rattle.partition_table.specs.model.Listing.{clashes_ahead, clashes_behind, answers_ahead, kept_of};
ghost use Rattle.partition_table.specs.model.Merging.{first_answer};

use crate::clash::Clash;
use crate::shared_registration::SharedRegistration;
use builtin_resolvers::Verdict3;
use clash_record::Name;
use std::slice;

// The clashes that are ahead, in the order of names, and their answers.
#[derive(Drop)]
pub(crate) struct Upcoming<'a> {
    next: Option<&'a Clash>,
    rest: slice::Iter<'a, Clash>,
    answers: slice::Iter<'a, Verdict3>,
}

impl<'a> Upcoming<'a> {
    pub(crate) fn new(clashes: &'a [Clash], answers: &'a [Verdict3]) -> Upcoming<'a>
        ensures clashes { clashes_ahead result ≡ clashes.entry.now }
        ensures answers { iter_rest result.answers ≡ answers.entry.now }
    {
        let mut rest = clashes.iter();
        Upcoming {
            next: rest.next(),
            rest,
            answers: answers.iter(),
        }
    }

    // Returns what is kept under a name that the first table registers so. Takes the next clash and its answer if it is of this
    // name.
    pub(crate) fn settle(
        &mut self,
        name: &Name,
        mine: &'a SharedRegistration,
    ) -> Option<&'a SharedRegistration>
        ensures kept { option_map (λ kept. kept.now) result
            ≡ kept_of name.now mine.entry.now (clashes_ahead self.old) (first_answer (iter_rest self.old.answers)) }
        ensures clashes { clashes_ahead self.new ≡ clashes_behind name.now (clashes_ahead self.old) }
        ensures answers { iter_rest self.new.answers
            ≡ answers_ahead name.now (clashes_ahead self.old) (iter_rest self.old.answers) }
    {
        let Some(clash) = self.next else {
            return Some(mine);
        };
        if clash.name().cmp(name).is_ne() {
            return Some(mine);
        }
        self.next = self.rest.next();
        match self.answers.next() {
            Some(Verdict3::First) => Some(clash.shared_first()),
            Some(Verdict3::Second) => Some(clash.shared_second()),
            Some(Verdict3::Neither) | None => None,
        }
    }
}
