//! Workers that judge clashes concurrently.
use fixtures::Together;
use judge_pool::Workers;
use partition_table::NameLimit;
use scripts::run_script;
use std::alloc::Global;
use std::io::Write;
use std::rt::Files;
use std::sync::Wait;
use std::test::Fail;
use std::thread::Threads;
use std::time::Clock;

/// Returns a script with `count` clashing names, and a line that heals them.
fn clashing(alloc: Global, count: u32) -> Result<Vec<u8>, Fail> {
    let mut script = Vec::new(alloc);
    for k in 0..count {
        write!(
            script,
            "register a n{k} 1.1 0 0 - exit\nregister b n{k} 2.1 0 0 - exit\n"
        )?;
    }
    script.extend_from_slice(b"heal 0\n")?;
    Ok(script)
}

/// Checks that `workers` workers judge as many clashes of this script concurrently, one each.
fn run_together<T: Files + Threads + Wait + Sync + AllocGlobal + Clock>(
    rt: &T,
    workers: Workers,
    script: &[u8],
) -> bool {
    let gate = Together::new(rt, u64::from(workers.count()));
    let mut reader = script;
    let mut written = Vec::new(rt.alloc());
    let status = run_script(
        rt,
        &mut reader,
        &mut written,
        NameLimit::default(),
        workers.count(),
        &gate,
    );
    status == 0 && gate.counts() == (u64::from(workers.count()), 0)
}

/// Checks that `workers` workers judge as many clashes concurrently.
fn are_together<T>(rt: &T, workers: Workers) -> Result<bool, Fail>
where
    T: Files + Threads + Wait + Sync + AllocGlobal + Clock,
{
    let script = clashing(rt.alloc(), workers.count())?;
    Ok(run_together(rt, workers, &script))
}

#[test]
fn workers_run_beside_each_other(rt: HostRuntime) -> Result<(), Fail> {
    for count in [2, 16] {
        let Some(workers) = Workers::new(count) else {
            return Err(Fail::from("there can't be so many workers"));
        };
        assert!(&rt; are_together(&rt, workers)?);
    }
    Ok(())
}
