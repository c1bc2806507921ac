//! The crew that carries out the lines of a script: its runtime, workers, gate and narrator.
use judge_pool::Workers;
use std::fmt;

/// The crew that carries out the lines of a script.
#[derive(Drop)]
pub struct Crew<'a, T, G, N> {
    /// The runtime, which reads files and starts threads.
    pub rt: &'a T,
    /// The number of workers that judge the clashes of a `heal`.
    pub workers: Workers,
    /// The gate that each of their posts passes.
    pub gate: &'a G,
    /// The narrator of refused lines and healings.
    pub narrator: &'a N,
}

impl<'a, T, G, N> fmt::Debug for Crew<'a, T, G, N> {
    fn fmt<W: fmt::Write>(&self, f: &mut fmt::Formatter<W>) -> fmt::Result {
        f.debug_struct("Crew")
            .field("workers", &self.workers)
            .finish()
    }
}
