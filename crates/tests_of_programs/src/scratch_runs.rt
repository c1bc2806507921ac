//! Tests of runs in one scratch memory.
use crate::assertions::assert_gives;
use clash_record::{ClashRecord, RECORD_LEN, record_of};
use interpreter::{Ended, Scratch, run, run_in, run_written};
use std::alloc::Global;
use std::test::Fail;
use verifier::{Verified, read_program};

// Code that answers the word of the record, by way of the stack.
const BY_STACK: [u8; 32] = [
    0x79, 0x12, 0x28, 0, 0, 0, 0, 0, // ldxdw r2, [r1+40]
    0x7b, 0x2a, 0xf8, 0xff, 0, 0, 0, 0, // stxdw [r10-8], r2
    0x79, 0xa0, 0xf8, 0xff, 0, 0, 0, 0, // ldxdw r0, [r10-8]
    0x95, 0, 0, 0, 0, 0, 0, 0, // exit
];

// Returns the runs at the words 0 and `word` in one memory.
fn two_runs(alloc: Global, word: u64) -> Result<(Ended, Ended), Fail> {
    let program = read_program(alloc, &BY_STACK)?;
    let mut scratch = Scratch::default();
    let zero = run_written(&mut scratch, &program);
    scratch.set_word(word);
    Ok((zero, run_written(&mut scratch, &program)))
}

// A run that ends with this answer.
fn ended(r0: u64) -> Ended {
    Ended { r0, steps: 4 }
}

#[test]
fn one_memory_serves_many_words(rt: HostRuntime) {
    let wanted = (ended(0), ended(u64::MAX));
    assert_gives(&rt, two_runs(rt.alloc(), u64::MAX), wanted);
}

// Returns a run on a copied record, a second run in the same memory, and whether the record is still there.
fn runs_on_copy(program: &Verified, record: &ClashRecord) -> (Ended, Ended, bool) {
    let mut scratch = Scratch::new();
    let copied = run_in(&mut scratch, program, record);
    let again = run_written(&mut scratch, program);
    let is_there = scratch.record() == record.bytes().as_slice();
    (copied, again, is_there)
}

// Returns a run on the record in a new memory, and the same as above.
fn runs_on_record(
    alloc: Global,
    record: &ClashRecord,
) -> Result<(Ended, (Ended, Ended, bool)), Fail> {
    let program = read_program(alloc, &BY_STACK)?;
    Ok((run(&program, record), runs_on_copy(&program, record)))
}

#[test]
fn a_copied_record_stays(rt: HostRuntime) {
    let runs = runs_on_record(rt.alloc(), &record_of([1; RECORD_LEN]));
    let all = ended(0x0101_0101_0101_0101);
    assert_gives(&rt, runs, (all, (all, all, true)));
}
