//! Tests of runs: the expected values follow from RFC 9669.
use crate::context_codes::{ABOVE_NINE, BY_STACK, SEVEN, byte_at};
use bpf::{Ended, Loaded, load};
use std::alloc::Global;
use std::test::Fail;

// Returns a context of zeros and a last byte.
fn ending_in(alloc: Global, zeros: u16, last: u8) -> Result<Vec<u8>, Fail> {
    let mut context = vec![in alloc; 0; zeros as usize]?;
    context.push(last)?;
    Ok(context)
}

// Returns the end of a run on a context in a new memory; `None` if the program is for another length.
fn ended(
    alloc: Global,
    code: &[u8],
    context_len: u16,
    context: &[u8],
) -> Result<Option<Ended>, Fail> {
    run_on(alloc, &load(alloc, code, context_len)?, context)
}

fn run_on(alloc: Global, program: &Loaded, context: &[u8]) -> Result<Option<Ended>, Fail> {
    if context.len() != program.context_len() as usize {
        return Ok(None);
    }
    let mut memory = program.memory(alloc)?;
    Ok(Some(program.run(&mut memory, context)))
}

// Returns the first of these lengths at which the last byte isn't read, and the end of the run.
fn first_unread(alloc: Global, lengths: &[u16]) -> Result<Option<(u16, Option<Ended>)>, Fail> {
    for context_len in lengths {
        let offset = context_len.wrapping_sub(1);
        let context = ending_in(alloc, offset, 0xa5)?;
        let found = ended(alloc, &byte_at(offset), *context_len, &context)?;
        if found != Some(Ended { r0: 0xa5, steps: 3 }) {
            return Ok(Some((*context_len, found)));
        }
    }
    Ok(None)
}

#[test]
fn reads_the_last_byte_of_each_length(rt: HostRuntime) -> Result<(), Fail> {
    let other = first_unread(rt.alloc(), &[1, 64, 160, 65_535])?;
    assert_eq!(rt; other, None);
    Ok(())
}

#[test]
fn runs_on_a_context_of_no_bytes(rt: HostRuntime) -> Result<(), Fail> {
    let ended = ended(rt.alloc(), &SEVEN, 0, &[])?;
    assert_eq!(rt; ended, Some(Ended { r0: 7, steps: 2 }));
    Ok(())
}

#[test]
fn decides_by_a_byte(rt: HostRuntime) -> Result<(), Fail> {
    for (last, want) in [(9, (2, 5)), (10, (1, 4)), (255, (1, 4))] {
        let context = ending_in(rt.alloc(), 63, last)?;
        let (r0, steps) = want;
        assert_eq!(rt;
            ended(rt.alloc(), &ABOVE_NINE, 64, &context)?,
            Some(Ended { r0, steps }),
            "at {last}"
        );
    }
    Ok(())
}

// Returns the answers of two runs in one memory, of a third on the context that is still there, and that context's first
// byte.
fn three_answers(
    alloc: Global,
    first: [u8; 8],
    second: [u8; 8],
) -> Result<(u64, u64, u64, u8), Fail> {
    let program = load(alloc, &BY_STACK, 8)?;
    let mut memory = program.memory(alloc)?;
    let a = program.run(&mut memory, &first);
    let b = program.run(&mut memory, &second);
    let again = program.run_written(&mut memory);
    Ok((a.r0, b.r0, again.r0, memory.context()[0]))
}

#[test]
fn one_memory_serves_many_runs(rt: HostRuntime) -> Result<(), Fail> {
    let answers = three_answers(rt.alloc(), [1, 0, 0, 0, 0, 0, 0, 2], [3; 8])?;
    assert_eq!(rt;
        answers,
        (
            0x0200_0000_0000_0001,
            0x0303_0303_0303_0303,
            0x0303_0303_0303_0303,
            3
        )
    );
    Ok(())
}

// Returns the end of a run on the context of zeros in a new memory.
fn ended_on_zeros(alloc: Global, program: &Loaded) -> Result<Ended, Fail> {
    let mut memory = program.memory(alloc)?;
    Ok(program.run_written(&mut memory))
}

#[test]
fn the_stack_lies_after_the_longest_context(rt: HostRuntime) -> Result<(), Fail> {
    let ended = ended_on_zeros(rt.alloc(), &load(rt.alloc(), &BY_STACK, 65_535)?)?;
    assert_eq!(rt; ended, Ended { r0: 0, steps: 6 });
    Ok(())
}
