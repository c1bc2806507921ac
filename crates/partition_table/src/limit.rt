//! The limit of a table's names.
ghost use Rattle.std.specs.Prelude.{◌≡◌, ◌<◌, ◌≤◌, ◌&&◌, ◌↔◌, IsTrue, IfSome, is_some, nat_lt, nat_le};
ghost use Rattle.partition_table.specs.Tables.{max_names, most_names};

/// The maximum number of names in a table whose owner chooses no other limit.
pub const MAX_NAMES: usize = 4096;

/// The number of names that a table may have: 1 to 1,048,576, as its owner chooses.
#[derive(Clone, Copy, Debug)]
pub struct NameLimit {
    names: usize,
    pub ghost some: { 0 < names },
    pub ghost few: { names ≤ most_names },
}

impl NameLimit {
    /// The greatest limit.
    pub const MAX: usize = 1_048_576;

    /// Returns the limit of this many names, if it is one: 1 to 1,048,576.
    pub fn new(names: usize) -> Option<NameLimit>
        ensures limit { IfSome result (λ limit. limit.names ≡ names) }
        ensures valid { is_some result ≡ (nat_lt 0 names && nat_le names most_names) }
    {
        if 0 < names && names <= NameLimit::MAX {
            Some(NameLimit { names })
        } else {
            None
        }
    }

    /// Returns the number of names.
    pub fn names(self) -> usize
        ensures { result ≡ self.names }
    {
        self.names
    }
}

impl Default for NameLimit {
    ghost is_default = { λ limit. limit.names ≡ max_names };

    fn default() -> NameLimit {
        NameLimit { names: MAX_NAMES }
    }
}
