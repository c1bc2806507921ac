//! The number of workers that judge clashes.
ghost use Rattle.std.specs.Prelude.{◌≡◌, ◌<◌, ◌≤◌, ◌&&◌, nat_le, nat_lt, if◌then◌else◌, Some, None};
ghost use Rattle.std.specs.Option.{option_map};
ghost use Rattle.verdict_board.specs.Boards.{most_seats};
ghost use Rattle.judge_pool.specs.Workers.{default_workers, workers_if};

/// The maximum number of workers.
pub const MAX_WORKERS: u32 = 16;

/// The number of workers that judge clashes: 1 to 16. Each has a seat of the board.
#[derive(Clone, Copy, Debug, PartialEq, Eq)]
pub struct Workers {
    count: u32,
    pub ghost some: { 0 < count },
    pub ghost few: { count ≤ most_seats },
}

impl Workers {
    /// Returns this number of workers if it is 1 to 16.
    pub fn new(count: u32) -> Option<Workers>
        ensures { option_map (λ workers. workers.count) result ≡ workers_if count }
    {
        if (1..=MAX_WORKERS).contains(&count) {
            Some(Workers { count })
        } else {
            None
        }
    }

    /// Returns the number.
    pub fn count(self) -> u32
        ensures count { result ≡ self.count }
        ensures some { 0 < result }
        ensures few { result ≤ most_seats }
    {
        self.count
    }
}

/// Four workers.
impl Default for Workers {
    ghost is_default = { λ workers. workers.count ≡ default_workers };

    fn default() -> Workers {
        Workers { count: 4 }
    }
}
