ghost use Rattle.std.specs.Prelude.{◌≡◌, ◌<◌, ◌≤◌, [], ℕ, IfOk, length, slice_index, replicate};

use fx_base::{NoMemory, Values};
use std::alloc::Global;

/// Places that stand for all vectors with their last factor right after some rows, whatever the first rows are.
#[derive(Drop)]
pub(crate) struct Kept {
    /// The rows for which they were found.
    pub(crate) rows: Values<u16>,
    /// How many of the first rows may be others.
    pub(crate) depth: usize,
    pub(crate) list: Values<usize>,
}

impl Kept {
    /// No places.
    pub(crate) fn none(alloc: Global) -> Kept
        ensures { result ≡ record { rows = []; depth = 0; list = [] } }
    {
        Kept {
            rows: Values::new(alloc),
            depth: 0,
            list: Values::new(alloc),
        }
    }
}

/// So many times no places.
pub(crate) fn none_kept(alloc: Global, count: usize) -> Result<Vec<Kept>, NoMemory>
    ensures { IfOk result (λ kept. kept.items ≡ replicate count (record { rows = []; depth = 0; list = [] })) }
{
    let mut kept = Vec::new(alloc);
    for _ in 0..count {
        if kept.push(Kept::none(alloc)).is_err() {
            return Err(NoMemory);
        }
    }
    Ok(kept)
}

/// From which place on two lists of rows are the same, where both have as many; else their length.
pub(crate) fn same_from(rows: &[u16], others: &[u16]) -> usize
    ensures most { result ≤ length rows.now }
    ensures same { (x : ℕ) → result ≤ x → x < length rows.now → slice_index rows.now x ≡ slice_index others.now x }
{
    let count = rows.len();
    if others.len() != count {
        return count;
    }
    for x in (0..count).rev() {
        if rows[x] != others[x] {
            return x + 1;
        }
    }
    0
}
