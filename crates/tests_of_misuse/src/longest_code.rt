//! Code of as many slots as there may be, in which each instruction is carried out.
use clash_record::record_of;
use interpreter::run;
use std::alloc::Global;
use std::test::Fail;
use verifier::read_program;

// `mov64 r0, 0`, then tests that never jump, each to the last slot, then `exit`.
fn never_jumping(alloc: Global) -> Result<Vec<u8>, Fail> {
    let mut bytes = Vec::new(alloc);
    bytes.extend_from_slice(&[0xb7, 0, 0, 0, 0, 0, 0, 0])?;
    for distance in (0..1022u16).rev() {
        let [low, high] = distance.to_le_bytes();
        bytes.extend_from_slice(&[0x45, 0, low, high, 0, 0, 0, 0])?;
    }
    bytes.extend_from_slice(&[0x95, 0, 0, 0, 0, 0, 0, 0])?;
    Ok(bytes)
}

// How many instructions the code has, and what a run of it on a record of zeros ends with, after how many steps.
fn ended(alloc: Global, bytes: &[u8]) -> Result<(usize, u64, u32), Fail> {
    let program = read_program(alloc, bytes)?;
    let ended = run(&program, &record_of([0; 160]));
    Ok((program.code().len(), ended.r0, ended.steps))
}

// Checks whether the first test jumps to the last slot, and returns how the code ends.
fn longest(alloc: Global) -> Result<(bool, (usize, u64, u32)), Fail> {
    let bytes = never_jumping(alloc)?;
    let jumps_to_last = bytes.get(8..16) == Some(&[0x45, 0, 0xfd, 0x03, 0, 0, 0, 0][..]);
    let ended = ended(alloc, &bytes)?;
    Ok((jumps_to_last, ended))
}

#[test]
fn every_test_is_carried_out(rt: HostRuntime) -> Result<(), Fail> {
    assert_eq!(rt; longest(rt.alloc())?, (true, (1024, 0, 1024)));
    Ok(())
}
