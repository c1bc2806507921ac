//! Codes with one byte changed: each is judged, and what is accepted ends in time.
use clash_record::{ClashRecord, record_of};
use interpreter::run;
use std::alloc::Global;
use std::test::Fail;
use verifier::{Verified, read_program};

const EXIT: &'static str = "9500000000000000";

/// Codes of at most 16 slots. Some of them are accepted as they stand.
const CODES: [&'static str; 32] = [
    "b700000001000000 X",
    "7912380000000000 7913600000000000 b700000001000000 3d32010000000000 b700000002000000 X",
    "95000000000000",
    "1800000001000000",
    "b700010001000000 X",
    "b70b000001000000 X",
    "8500000001000000 X",
    "0500ffff00000000 X",
    "bf20000000000000 X",
    "bf10000000000000 X",
    "7910780000000000 X",
    "7910790000000000 X",
    "7112080000000000 570200001f000000 0f21000000000000 7110080000000000 X",
    "7112080000000000 570200007f000000 0f21000000000000 7110080000000000 X",
    "b4000000ffffffff 0400000001000000 X",
    "b7000000f3ffffff 9700010003000000 0700000002000000 X",
    "b700000007000000 3700000000000000 X",
    "79a0f8ff00000000 X",
    "7a0af8ff02000000 79a0f8ff00000000 X",
    "0500010000000000 1800000001000000 0000000000000000 X",
    "b700000001000000",
    "7912080000000000 b700000001000000 1502010000000000 bf10000000000000 X",
    "7912080000000000 1502010000000000 7a0af8ff02000000 79a0f8ff00000000 X",
    "7112080000000000 b700000000000000 2502020077000000 0f21000000000000 7110080000000000 X",
    "7112080000000000 b700000000000000 2502020078000000 0f21000000000000 7110080000000000 X",
    "b700000001000000 1500010001000000 bf20000000000000 X",
    "1800000001000000 0000000002000000 X",
    "7910980000000000 X",
    "7910990000000000 X",
    "7112080000000000 57020000ff000000 0f21000000000000 7110080000000000 X",
    "7112080000000000 b700000000000000 2502020097000000 0f21000000000000 7110080000000000 X",
    "7112080000000000 b700000000000000 2502020098000000 0f21000000000000 7110080000000000 X",
];

/// How many codes were accepted, how many of these took more steps than they have instructions, and how many codes were
/// refused.
#[derive(Clone, Copy, Debug)]
struct Counts {
    accepted: u32,
    late: u32,
    refused: u32,
}

// The bytes of these slots.
fn bytes_of(alloc: Global, slots: &str) -> Result<Vec<u8>, Fail> {
    let mut bytes = Vec::new(alloc);
    for slot in slots.split(' ') {
        let digits = if slot == "X" { EXIT } else { slot };
        bytes.extend_from_slice(&hex::decode(alloc, digits)?)?;
    }
    Ok(bytes)
}

// Checks that a run takes at most as many steps as the code has instructions.
fn ends_in_time(program: &Verified, record: &ClashRecord) -> bool {
    run(program, record).steps as usize <= program.code().len()
}

// Judges these bytes, and runs what is accepted on a record of zeros and on one of ones.
fn judge_one(alloc: Global, bytes: &[u8], counts: &mut Counts) {
    let Ok(program) = read_program(alloc, bytes) else {
        counts.refused = counts.refused.wrapping_add(1);
        return;
    };
    counts.accepted = counts.accepted.wrapping_add(1);
    let records = [record_of([0; 160]), record_of([0xff; 160])];
    if !records.iter().all(|record| ends_in_time(&program, record)) {
        counts.late = counts.late.wrapping_add(1);
    }
}

// Judges the code with the byte in this place replaced by each value.
fn judge_each_value(
    alloc: Global,
    bytes: &mut [u8],
    place: usize,
    counts: &mut Counts,
) -> Result<(), Fail> {
    for value in 0..=255u8 {
        let Some(byte) = bytes.get_mut(place) else {
            return Err(Fail::from("no such byte"));
        };
        *byte = value;
        judge_one(alloc, bytes, counts);
    }
    Ok(())
}

// Judges the code with each of its bytes replaced by each value.
fn judge_each_byte(alloc: Global, slots: &str, counts: &mut Counts) -> Result<(), Fail> {
    let mut bytes = bytes_of(alloc, slots)?;
    judge_each_place(alloc, &mut bytes, counts)
}

fn judge_each_place(alloc: Global, bytes: &mut [u8], counts: &mut Counts) -> Result<(), Fail> {
    for place in 0..bytes.len() {
        let kept = bytes.get(place).copied().ok_or("no such byte")?;
        judge_each_value(alloc, bytes, place, counts)?;
        if let Some(byte) = bytes.get_mut(place) {
            *byte = kept;
        }
    }
    Ok(())
}

// Judges the codes in turn. Returns the first that took too many steps.
fn first_late(alloc: Global, counts: &mut Counts) -> Result<Option<&'static str>, Fail> {
    for slots in &CODES {
        judge_each_byte(alloc, slots, counts)?;
        if counts.late > 0 {
            return Ok(Some(*slots));
        }
    }
    Ok(None)
}

#[test]
fn each_byte_by_each_value(rt: HostRuntime) -> Result<(), Fail> {
    let mut counts = Counts {
        accepted: 0,
        late: 0,
        refused: 0,
    };
    assert_eq!(rt; first_late(rt.alloc(), &mut counts)?, None);
    assert!(rt; counts.accepted > 0 && counts.refused > 0, "{counts:?}");
    Ok(())
}
