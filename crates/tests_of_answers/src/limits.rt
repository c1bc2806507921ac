//! Scripts on halves with other limits of names.
use crate::script_devices::{GOOD, is_answered_within};
use partition_table::NameLimit;
use std::alloc::Global;
use std::io;
use std::test::Fail;

// Returns a script that registers this many names on side a.
fn registrations(alloc: Global, count: u32) -> io::Result<String> {
    let mut script = String::new(alloc);
    for k in 0..count {
        let line = format!(in alloc; "register a n{k} 1.{k} 0 0 - exit\n")?;
        script.push_str(&line)?;
    }
    Ok(script)
}

// Returns the answer `yes` this many times, and then another line.
fn answers(alloc: Global, count: u32, last: &str) -> io::Result<String> {
    let mut text = String::new(alloc);
    for _ in 0..count {
        text.push_str("yes\n")?;
    }
    text.push_str(last)?;
    Ok(text)
}

#[test]
fn a_half_has_as_many_names_as_its_limit(rt: HostRuntime) -> Result<(), Fail> {
    let rows = [
        (8192, 5000, 5000, 0, ""),
        (10, 11, 10, 2, "line 11: refused 32\n"),
        (4096, 4097, 4096, 2, "line 4097: refused 32\n"),
    ];
    for (limit, names, taken, status, last) in rows {
        let limit = NameLimit::new(limit).unwrap_or_default();
        let script = registrations(rt.alloc(), names)?;
        let said = answers(rt.alloc(), taken, last)?;
        let due = (status, said.as_bytes());
        assert!(&rt;
            is_answered_within(&rt, limit, script.as_bytes(), (GOOD, GOOD), due),
            "{names}"
        );
    }
    Ok(())
}

#[test]
fn two_halves_have_no_more_names_together(rt: HostRuntime) {
    let script = b"register a x 1.1 0 0 - exit\nregister b y 2.1 0 0 - exit\nheal 0\n";
    let said = b"yes\nyes\nline 3: refused 37\n";
    let limit = NameLimit::new(1).unwrap_or_default();
    assert!(&rt; is_answered_within(&rt, limit, script, (GOOD, GOOD), (2, said.as_slice())));
}
