//! The number of names that a half may have.
ghost use Rattle.std.specs.Prelude.{◌≡◌, ◌<◌, ◌≤◌, ◌&&◌, nat_le, nat_lt, if◌then◌else◌, Some, None};
ghost use Rattle.std.specs.Option.{option_map};
ghost use Rattle.partition_table.specs.Tables.{most_names};
ghost use Rattle.command_line.specs.Names.{names_if};

/// The maximum number of names that a half of a script may have.
pub const MAX_NAMES: u32 = 1_048_576;

/// The number of names that each half of a script may have. Its type guarantees 1 to 1,048,576.
#[derive(Clone, Copy, Debug, PartialEq, Eq)]
pub struct Names {
    count: u32,
    pub ghost some: { 0 < count },
    pub ghost few: { count ≤ most_names },
}

impl Names {
    /// Returns this number of names if it is 1 to 1,048,576.
    pub fn new(count: u32) -> Option<Names>
        ensures { option_map (λ names. names.count) result ≡ names_if count }
    {
        if (1..=MAX_NAMES).contains(&count) {
            Some(Names { count })
        } else {
            None
        }
    }

    /// Returns the number.
    pub fn count(self) -> u32
        ensures count { result ≡ self.count }
        ensures some { 0 < result }
        ensures few { result ≤ most_names }
    {
        self.count
    }
}
