//! The resolvers that need no program: verdicts and notices, row by row.
use crate::assertions::{assert_gives, assert_same};
use builtin_resolvers::{Notice, Verdict3, decide, notices};
use clash_record::{Builtin, Name, Owner, name};
use std::test::Fail;

const FIRST: Owner = Owner { node: 1, serial: 1 };

const SECOND: Owner = Owner { node: 2, serial: 2 };

/// A resolver, a word, and the verdict.
const BY_WORD: &[(Builtin, u64, Verdict3)] = &[
    (Builtin::Exit, 0, Verdict3::First),
    (Builtin::Exit, 1, Verdict3::Second),
    (Builtin::Notify, 2, Verdict3::First),
    (Builtin::Notify, u64::MAX, Verdict3::Second),
    (Builtin::NotifyAll, 3, Verdict3::Neither),
];

#[test]
fn verdicts_by_word(rt: HostRuntime) {
    for (resolver, word, wanted) in BY_WORD {
        assert_same(&rt, decide(*resolver, *word), *wanted);
    }
}

/// A program's answer, and the verdict.
const BY_ANSWER: &[(u64, Verdict3)] = &[
    (1, Verdict3::First),
    (2, Verdict3::Second),
    (0, Verdict3::Neither),
    (3, Verdict3::Neither),
    (u64::MAX, Verdict3::Neither),
];

#[test]
fn verdicts_by_answer(rt: HostRuntime) {
    for (answer, wanted) in BY_ANSWER {
        assert_same(&rt, Verdict3::of_answer(*answer), *wanted);
    }
}

/// The notices of the name `m`: none, one to the loser's owner, or one to each owner.
#[derive(Clone, Copy)]
enum Told {
    Nothing,
    Exit(Owner),
    Conflict(Owner),
    Both,
}

impl Told {
    fn notices(self, m: Name) -> [Option<Notice>; 2] {
        match self {
            Told::Nothing => [None, None],
            Told::Exit(owner) => [Some(Notice::Exit(owner)), None],
            Told::Conflict(owner) => [Some(Notice::Conflict(m, owner)), None],
            Told::Both => [
                Some(Notice::ConflictWith(m, FIRST, SECOND)),
                Some(Notice::ConflictWith(m, SECOND, FIRST)),
            ],
        }
    }
}

/// Exit and notify send a notice to the loser's owner, notify-all to both; the other verdicts send none.
const NOTICES: &[(Builtin, Verdict3, Told)] = &[
    (Builtin::Exit, Verdict3::First, Told::Exit(SECOND)),
    (Builtin::Exit, Verdict3::Second, Told::Exit(FIRST)),
    (Builtin::Notify, Verdict3::First, Told::Conflict(SECOND)),
    (Builtin::Notify, Verdict3::Second, Told::Conflict(FIRST)),
    (Builtin::NotifyAll, Verdict3::Neither, Told::Both),
    (Builtin::Exit, Verdict3::Neither, Told::Nothing),
    (Builtin::Notify, Verdict3::Neither, Told::Nothing),
    (Builtin::NotifyAll, Verdict3::First, Told::Nothing),
    (Builtin::NotifyAll, Verdict3::Second, Told::Nothing),
];

// What a row's notices are, by length, count and slots.
type Counted = (usize, usize, bool, [Option<Notice>; 2]);

// Returns the row's notices.
fn counted(m: Name, resolver: Builtin, verdict: Verdict3) -> Counted {
    let got = notices(resolver, &m, FIRST, SECOND, verdict);
    let all = got.as_slice();
    let slots = [all.get(0).copied(), all.get(1).copied()];
    (all.len(), got.len(), got.is_empty(), slots)
}

// Returns what the row's notices should be.
fn wanted(m: Name, told: Told) -> Counted {
    let slots = told.notices(m);
    let count = slots.iter().flatten().count();
    (count, count, count == 0, slots)
}

// Returns the first row with other notices, and these.
fn first_with_other_notices(
    rows: &[(Builtin, Verdict3, Told)],
) -> Result<Option<(Builtin, Verdict3, Counted)>, Fail> {
    let m = name(b"m")?;
    for (resolver, verdict, told) in rows {
        let found = counted(m, *resolver, *verdict);
        if found != wanted(m, *told) {
            return Ok(Some((*resolver, *verdict, found)));
        }
    }
    Ok(None)
}

#[test]
fn notices_of_each_verdict(rt: HostRuntime) {
    assert_gives(&rt, first_with_other_notices(NOTICES), None);
}
