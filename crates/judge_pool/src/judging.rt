//! Judging a clash of a list.
ghost use Rattle.std.specs.Prelude.{◌≡◌, ◌<◌, Some, length, slice_get};
ghost use Rattle.partition_table.specs.Tables as tables;
ghost use Rattle.partition_table.specs.Judged.{clash_of_verdict, word_of_verdict, answer_of_verdict};

use interpreter::Scratch;
use partition_table::{ClashList, Verdict};

/// Runs the resolver of clash `k` at a word and returns its verdict.
///
/// Requires that `k` is below the count of clashes. Allocates nothing.
pub fn judge(clashes: &ClashList, k: u32, word: u64) -> Verdict<'_>
    requires { k < length clashes.now }
    ensures clash { slice_get clashes.entry.now k ≡ Some (clash_of_verdict result) }
    ensures word { word_of_verdict result ≡ word }
    ensures answer { answer_of_verdict result ≡ tables.answer (clash_of_verdict result) word }
{
    let Some(clash) = clashes.get(k) else {
        unreachable!()
    };
    Verdict::judged(clash, word)
}

/// Like `judge`, in this scratch memory.
pub fn judge_in<'a>(scratch: &mut Scratch, clashes: &'a ClashList, k: u32, word: u64) -> Verdict<'a>
    requires { k < length clashes.now }
    ensures clash { slice_get clashes.entry.now k ≡ Some (clash_of_verdict result) }
    ensures word { word_of_verdict result ≡ word }
    ensures answer { answer_of_verdict result ≡ tables.answer (clash_of_verdict result) word }
{
    let Some(found) = clashes.get(k) else {
        unreachable!()
    };
    Verdict::judged_in(scratch, found, word)
}
