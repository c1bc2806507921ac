//! Merges by answers, with names that were withdrawn, and tables that are too full for one.
use crate::assertions::assert_gives;
use crate::wordings::number;
use builtin_resolvers::Verdict3;
use clash_record::{Name, name};
use fixtures::{EXIT, Row, exit_registration, numbered_name, numbered_table, table_of};
use partition_table::{
    MAX_NAMES, Table, TableFault, clashes, clashes_theorem, fit, merge, merge_theorem,
};
use std::alloc::Global;
use std::test::Fail;
use upload_store::UploadStore;

/// The answers of the clashes of two tables, and the names that each withdrew.
#[derive(Clone, Copy)]
struct By {
    answers: &'static [Verdict3],
    gone_a: &'static [&'static str],
    gone_b: &'static [&'static str],
}

/// Two tables, by what they are merged, the merge, and names that it doesn't have.
#[derive(Clone, Copy)]
struct Merge {
    a: &'static [Row],
    b: &'static [Row],
    by: By,
    merged: &'static [Row],
    absent: &'static [&'static str],
}

/// By the answers alone; then the side that holds what is kept drops it, the side that lost changes nothing, and equal
/// registrations go by either.
const MERGES: &[Merge] = &[
    Merge {
        a: &[("db", 2, 1), ("log", 2, 2), ("own", 2, 3), ("same", 3, 1)],
        b: &[("db", 1, 1), ("log", 1, 2), ("same", 3, 1), ("web", 1, 3)],
        by: By {
            answers: &[Verdict3::Second, Verdict3::Neither],
            gone_a: &[],
            gone_b: &[],
        },
        merged: &[("db", 2, 1), ("own", 2, 3), ("same", 3, 1), ("web", 1, 3)],
        absent: &["log"],
    },
    Merge {
        a: &[("db", 2, 1), ("own", 2, 3), ("same", 3, 1)],
        b: &[("db", 1, 1), ("same", 3, 1)],
        by: By {
            answers: &[Verdict3::First],
            gone_a: &["db", "db"],
            gone_b: &["own"],
        },
        merged: &[("db", 1, 1), ("own", 2, 3), ("same", 3, 1)],
        absent: &[],
    },
    Merge {
        a: &[("db", 2, 1), ("own", 2, 3), ("same", 3, 1)],
        b: &[("db", 1, 1), ("same", 3, 1)],
        by: By {
            answers: &[Verdict3::First],
            gone_a: &["same"],
            gone_b: &["own", "db"],
        },
        merged: &[("own", 2, 3)],
        absent: &["db", "same"],
    },
    Merge {
        a: &[("db", 2, 1), ("own", 2, 3), ("same", 3, 1)],
        b: &[("db", 1, 1), ("same", 3, 1)],
        by: By {
            answers: &[Verdict3::First],
            gone_a: &[],
            gone_b: &["same"],
        },
        merged: &[("db", 1, 1), ("own", 2, 3)],
        absent: &["same"],
    },
];

/// No answers, and nothing withdrawn.
const NOTHING: By = By {
    answers: &[],
    gone_a: &[],
    gone_b: &[],
};

fn names(alloc: Global, texts: &[&str]) -> Result<Vec<Name>, Fail> {
    let mut names = Vec::new(alloc);
    for text in texts {
        names.push(name(text.as_bytes())?)?;
    }
    Ok(names)
}

// The merge, by as many answers as there are clashes.
fn merge_by(
    alloc: Global,
    a: &Table,
    b: &Table,
    by: By,
) -> Result<Result<Table, TableFault>, Fail> {
    let gone_a = names(alloc, by.gone_a)?;
    let gone_b = names(alloc, by.gone_b)?;
    if by.answers.len() != clashes(alloc, a, 0, b, 0)?.len() {
        return Err(Fail::from("not one answer a clash"));
    }
    Ok(merge(alloc, a, b, by.answers, &gone_a, &gone_b))
}

fn merged(alloc: Global, case: &Merge) -> Result<Table, Fail> {
    let a = table_of(alloc, case.a)?;
    let b = table_of(alloc, case.b)?;
    Ok(merge_by(alloc, &a, &b, case.by)??)
}

// The first of these rows that the table doesn't have.
fn first_missing(table: &Table, rows: &[Row]) -> Result<Option<&'static str>, Fail> {
    for (text, node, serial) in rows {
        let found = table.whereis(&name(text.as_bytes())?);
        if found.copied() != Some(exit_registration(*node, *serial)) {
            return Ok(Some(*text));
        }
    }
    Ok(None)
}

// The first of these names that the table has.
fn first_present(table: &Table, texts: &[&'static str]) -> Result<Option<&'static str>, Fail> {
    for text in texts {
        if table.whereis(&name(text.as_bytes())?).is_some() {
            return Ok(Some(*text));
        }
    }
    Ok(None)
}

// Returns how many names the merge has, and the first that it lacks and the first that it has too many.
fn seen_of_merge(alloc: Global, case: &Merge) -> Result<(usize, [Option<&'static str>; 2]), Fail> {
    let table = merged(alloc, case)?;
    let missing = first_missing(&table, case.merged)?;
    let present = first_present(&table, case.absent)?;
    Ok((table.len(), [missing, present]))
}

#[test]
fn merges_by_answers_and_withdrawn_names(rt: HostRuntime) {
    for case in MERGES {
        let wanted = (case.merged.len(), [None; 2]);
        assert_gives(&rt, seen_of_merge(rt.alloc(), case), wanted);
    }
}

// The number with which a table refuses one more name.
fn refused_name(alloc: Global, full: &mut Table) -> Result<Option<u32>, Fail> {
    let more = numbered_name(b'x', 4096)?;
    let refused = full.register(more, exit_registration(1, 1), &UploadStore::new(alloc));
    Ok(number(refused.err()))
}

// The numbers with which a table neither fits one of one more name nor merges with it.
fn refused_table(alloc: Global, full: &Table) -> Result<(Option<u32>, Option<u32>), Fail> {
    let one = table_of(alloc, &[("z", 1, 1)])?;
    fit(&one, &one)?;
    let unmerged = merge_by(alloc, full, &one, NOTHING)?.err();
    Ok((number(fit(full, &one).err()), number(unmerged)))
}

// How many names a full table has, the number with which it refuses one more name, and the numbers with which it
// refuses a table of one more.
type Filled = (usize, Option<u32>, (Option<u32>, Option<u32>));

fn filled(alloc: Global) -> Result<Filled, Fail> {
    let mut full = numbered_table(alloc, 4096, 1, EXIT, &UploadStore::new(alloc))?;
    let refused = refused_name(alloc, &mut full)?;
    Ok((full.len(), refused, refused_table(alloc, &full)?))
}

#[test]
fn holds_4096(rt: HostRuntime) {
    let refused = (Some(37), Some(37));
    assert_gives(&rt, filled(rt.alloc()), (MAX_NAMES, Some(32), refused));
    clashes_theorem();
    merge_theorem();
}
