ghost use Rattle.std.specs.Prelude.{◌≡◌, ◌+◌, ◌^◌, ◌<◌, ◌≤◌, ◌↔◌, ℕ, List, IsTrue, IfOk, length, replicate};
ghost use Rattle.fx_designs.specs.Vectors.{vectors_of};
ghost use Rattle.fx_designs.specs.Runs.{runs_of};
ghost use Rattle.fx_runs.specs.RunBlocks.{run_at};
ghost use Rattle.fx_runs.specs.Runs.{design_of};
ghost use Rattle.fx_derived.specs.Codes.{ArePlaces, IsWordOn, are_levels_balanced, derived_level};
ghost use Rattle.fx_derived.specs.Counts.{AreLevelCounts, AreEqual};

use fx_base::NoMemory;
use fx_runs::{Runs, list_runs};
use fx_vectors::Matrix;
use std::alloc::Global;

/// Whether each level of the derived factor of the factors at these places, which count from 1, comes
/// equally often over the runs of a whole rule matrix. It does exactly where no defining word is
/// supported on the places.
pub fn levels_balanced(alloc: Global, matrix: &Matrix, places: &[u8]) -> Result<bool, NoMemory>
    requires complete { length matrix.now.rows ≡ matrix.now.shape.s + matrix.now.shape.t }
    requires places { ArePlaces matrix.now.shape.s places.now }
    requires some { 2 ≤ length places.now }
    requires few { length places.now ≤ 4 }
    ensures levels { IfOk result (λ balanced. balanced
        ≡ are_levels_balanced matrix.now.shape.q places.now (design_of matrix.now).rows) }
    ensures words { IfOk result (λ balanced. IsTrue balanced ↔ ((word : List ℕ)
        → ¬ IsWordOn matrix.now.shape.q matrix.now.shape.s (design_of matrix.now).rows places.now word)) }
{
    // Its order, once read, is known to be one of the seven.
    let _known = matrix.shape();
    let runs = list_runs(alloc, matrix)?;
    let counts = counts_of(alloc, &runs, places)?;
    Ok(are_equal(counts.as_slice()))
}

/// Whether the counts are equal.
fn are_equal(counts: &[usize]) -> bool
    ensures { IsTrue result ↔ AreEqual counts.now }
{
    for y in 1..counts.len() {
        if counts[y] != counts[0] {
            return false;
        }
    }
    true
}

/// On how many runs the derived factor has each level.
fn counts_of(alloc: Global, runs: &Runs, places: &[u8]) -> Result<Vec<usize>, NoMemory>
    requires places { ArePlaces runs.now.shape.s places.now }
    requires few { length places.now ≤ 4 }
    ensures { IfOk result (λ counts.
        AreLevelCounts runs.now.shape.q places.now runs.now.rows counts.items) }
{
    let levels = usize::from(runs.shape().q).pow(places.len() as u32);
    let mut counts = match vec![in alloc; 0usize; levels] {
        Ok(counts) => counts,
        Err(_) => return Err(NoMemory),
    };
    count_levels(runs, places, counts.as_mut_slice());
    Ok(counts)
}

/// Counts on how many runs the derived factor has each level.
fn count_levels(runs: &Runs, places: &[u8], counts: &mut [usize])
    requires places { ArePlaces runs.now.shape.s places.now }
    requires few { length places.now ≤ 4 }
    requires none { counts.old ≡ replicate (runs.now.shape.q ^ length places.now) 0 }
    ensures { AreLevelCounts runs.now.shape.q places.now runs.now.rows counts.new }
{
    for i in 0..runs.len() {
        let level = level_at(runs, i, places);
        counts[level] += 1;
    }
}

/// The level of the run at `i` as one of the derived factor.
pub fn level_at(runs: &Runs, i: usize, places: &[u8]) -> usize
    requires there { i < length runs.now.rows }
    requires places { ArePlaces runs.now.shape.s places.now }
    requires fits { runs.now.shape.q ^ length places.now < 2 ^ 64 }
    ensures level { result ≡ derived_level runs.now.shape.q places.now (run_at runs.now i) }
    ensures below { result < runs.now.shape.q ^ length places.now }
{
    let q = usize::from(runs.shape().q);
    let x = runs.row(i);
    let mut level = 0;
    for place in places {
        level = level * q + usize::from(x.code(usize::from(*place) - 1));
    }
    level
}
