//! The exactness of `Both`, in terms of signed numbers.
ghost use Rattle.abstract_value.specs.SignedResults.{BothIsExact};

/// States that a value represents the words in both its ranges, that the ranges are the hulls of these words, and that
/// the result of each operation is exact. Does nothing at run time.
pub fn both_is_exact_theorem()
    ensures { BothIsExact }
{}
