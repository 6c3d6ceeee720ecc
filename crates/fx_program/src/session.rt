ghost use Rattle.std.specs.Prelude.{◌<◌, ◌≤◌};

use std::alloc::Global;

/// What a run of steps, or a list of lines, uses throughout.
#[derive(Drop)]
pub(crate) struct Session<'a, R> {
    /// Starts the threads.
    pub(crate) rt: &'a R,
    pub(crate) alloc: Global,
    /// How many threads search, and put books together.
    pub(crate) threads: u8,
    /// What random numbers start from, where a statement has no seed of its own.
    pub(crate) seed: u64,
    ghost in_range: { (0 < threads) × (threads ≤ 64) },
}
