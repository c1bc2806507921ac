//! The outcome of a post.
use partition_table::Verdict;

/// The part of a clash that a pass has seen after it posted a verdict.
#[derive(Clone, Copy, Debug)]
pub enum Posted<'p> {
    /// The posted verdict.
    Kept,
    /// A verdict at another word.
    Earlier,
    /// Nothing, since an allocation failed. Returns the posted verdict.
    Refused(Verdict<'p>),
}
