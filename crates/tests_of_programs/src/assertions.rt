//! Assertions for all tests: each is proved once here, where `assert_eq!` is proved in each place that has it.
use std::fmt::Debug;
use std::io::Eprint;
use std::process::{Abort, Termination};
use std::test::Fail;

/// Fails the test unless the value is the wanted one.
pub(crate) fn assert_same<R: Abort, T: Copy + Debug + PartialEq>(rt: &R, found: T, wanted: T) {
    assert_eq!(rt; found, wanted);
}

/// Fails the test unless the answer is the wanted value. Prints why it isn't.
pub(crate) fn assert_gives<R: Abort + Eprint, T: Copy + Debug + PartialEq>(
    rt: &R,
    answer: Result<T, Fail>,
    wanted: T,
) {
    match answer {
        Ok(found) => assert_same(rt, found, wanted),
        Err(fail) => {
            let _ = Err::<(), Fail>(fail).report(rt);
            panic!(rt; "no value, where {wanted:?} is wanted");
        }
    }
}
