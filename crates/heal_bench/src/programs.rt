//! What decoding, verifying and running a program costs.
ghost use Rattle.std.specs.Prelude.{◌<◌, IfOk};

use crate::fault::Fault;
use clash_record::{RECORD_LEN, record_of, set_word};
use insn_codec::decode;
use interpreter::{Scratch, run, run_written};
use std::alloc::Global;
use std::fmt;
use std::time::Instant;
use verifier::{Profile, Verified, read_program, verify};

/// The count of times that a program is decoded and verified.
const LOADS: u32 = 2000;

/// A mean time in tenths of a nanosecond.
#[derive(Clone, Copy)]
struct Tenths(u128);

impl Tenths {
    // Returns the mean time of `runs` runs that took `nanos` nanoseconds in total.
    fn mean(nanos: u128, runs: u32) -> Tenths
        requires { 0 < runs }
    {
        Tenths(nanos.saturating_mul(10) / u128::from(runs))
    }
}

impl fmt::Display for Tenths {
    fn fmt<W: fmt::Write>(&self, f: &mut fmt::Formatter<W>) -> fmt::Result {
        write!(f, "{}.{} ns", self.0 / 10, self.0 % 10)
    }
}

/// The mean time of a run, and the sum of the answers of all runs.
#[derive(Clone, Copy)]
struct Runs {
    time: Tenths,
    sum: u64,
}

/// Mean times in nanoseconds of decoding and verifying, the runs on the record in a scratch memory and on copies of it, and
/// the steps of one run.
#[derive(Clone, Copy)]
pub(crate) struct Measured {
    decode: u128,
    verify: u128,
    run: Runs,
    copied: Runs,
    steps: u32,
}

impl fmt::Display for Measured {
    fn fmt<W: fmt::Write>(&self, f: &mut fmt::Formatter<W>) -> fmt::Result {
        writeln!(
            f,
            "decode {} ns\nverify {} ns\nrun {}\nrun-copied {}\nsteps {}\nsum {}\nsum-copied {}",
            self.decode,
            self.verify,
            self.run.time,
            self.copied.time,
            self.steps,
            self.run.sum,
            self.copied.sum
        )
    }
}

/// Decodes and verifies the program, runs it on the record, and takes the times.
pub(crate) fn measure(
    rt: &HostRuntime,
    code: &str,
    clash: &str,
    runs: &str,
) -> Result<Measured, Fault> {
    let alloc = rt.alloc();
    let bytes = hex::decode(alloc, code)?;
    let record = record_bytes(alloc, clash)?;
    let runs = run_count(runs)?;
    let program = read_program(alloc, &bytes)?;
    measure_program(rt, &bytes, &program, record, runs)
}

// Measures these bytes, which are the program.
fn measure_program(
    rt: &HostRuntime,
    bytes: &[u8],
    program: &Verified,
    record: [u8; RECORD_LEN],
    runs: u32,
) -> Result<Measured, Fault>
    requires { 0 < runs }
{
    Ok(Measured {
        run: runs_in_scratch(rt, program, record, runs)?,
        copied: runs_on_copies(rt, program, record, runs)?,
        decode: mean_decode(rt, bytes)?,
        verify: mean_verify(rt, bytes)?,
        steps: run(program, &record_of(record)).steps,
    })
}

// Returns the count of runs in a word.
fn run_count(word: &str) -> Result<u32, Fault>
    ensures { IfOk result (λ runs. 0 < runs) }
{
    match word.parse::<u32>() {
        Ok(runs) if runs > 0 => Ok(runs),
        _ => Err(Fault::Runs),
    }
}

fn record_bytes(alloc: Global, text: &str) -> Result<[u8; RECORD_LEN], Fault> {
    let bytes = hex::decode(alloc, text)?;
    if bytes.len() != RECORD_LEN {
        return Err(Fault::RecordLength);
    }
    let mut record = [0; RECORD_LEN];
    record.copy_from_slice(&bytes);
    Ok(record)
}

fn mean_decode(rt: &HostRuntime, bytes: &[u8]) -> Result<u128, Fault> {
    let start = Instant::now(rt)?;
    for _ in 0..LOADS {
        decode(rt.alloc(), bytes)?;
    }
    Ok(start.elapsed(rt)?.as_nanos() / u128::from(LOADS))
}

fn mean_verify(rt: &HostRuntime, bytes: &[u8]) -> Result<u128, Fault> {
    let mut total: u128 = 0;
    for _ in 0..LOADS {
        let code = decode(rt.alloc(), bytes)?;
        let start = Instant::now(rt)?;
        verify::<Profile>(rt.alloc(), code)?;
        total = total.wrapping_add(start.elapsed(rt)?.as_nanos());
    }
    Ok(total / u128::from(LOADS))
}

// Runs on the record in one scratch memory, where the word is set for each run.
fn runs_in_scratch(
    rt: &HostRuntime,
    program: &Verified,
    record: [u8; RECORD_LEN],
    runs: u32,
) -> Result<Runs, Fault>
    requires { 0 < runs }
{
    let mut scratch = Scratch::new();
    scratch.copy_record(&record_of(record));
    let mut sum: u64 = 0;
    let start = Instant::now(rt)?;
    for word in 0..runs {
        scratch.set_word(u64::from(word));
        sum = sum.wrapping_add(run_written(&mut scratch, program).r0);
    }
    let time = Tenths::mean(start.elapsed(rt)?.as_nanos(), runs);
    Ok(Runs { time, sum })
}

// Runs on a copy of the record each, whose word is set before.
fn runs_on_copies(
    rt: &HostRuntime,
    program: &Verified,
    record: [u8; RECORD_LEN],
    runs: u32,
) -> Result<Runs, Fault>
    requires { 0 < runs }
{
    let mut record = record;
    let mut sum: u64 = 0;
    let start = Instant::now(rt)?;
    for word in 0..runs {
        set_word(&mut record, u64::from(word));
        sum = sum.wrapping_add(run(program, &record_of(record)).r0);
    }
    let time = Tenths::mean(start.elapsed(rt)?.as_nanos(), runs);
    Ok(Runs { time, sum })
}
