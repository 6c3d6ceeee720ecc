ghost use Rattle.std.specs.Prelude.{◌≡◌, ◌==◌, ◌-◌, ◌<◌, if◌then◌else◌, IfOk, length};
ghost use Rattle.fx_designs.specs.Vectors.{IsVector, vectors_of};
ghost use Rattle.fx_designs.specs.Runs.{runs_of};
ghost use Rattle.fx_foldover.specs.Foldovers.{combined_plan, exchanged_run};

use fx_base::NoMemory;
use fx_runs::{Runs, list_runs};
use fx_vectors::{Matrix, Vector};
use std::alloc::Global;

/// The combined plan of a fold-over (Wu and Hamada): the runs of a design of two levels without block
/// factors, and after them the same runs with the levels of the folded factors exchanged. These
/// are the factors whose code in `fold` is not 0. The 2^(m+1) rows have the shape of the design.
///
/// # Errors
///
/// `NoMemory`.
pub fn fold_runs(alloc: Global, matrix: &Matrix, fold: &Vector) -> Result<Runs, NoMemory>
    requires levels { matrix.now.shape.q ≡ 2 }
    requires no_blocks { matrix.now.shape.t ≡ 0 }
    requires complete { length matrix.now.rows ≡ matrix.now.shape.s }
    requires fold { length fold.now ≡ matrix.now.shape.s }
    ensures shape { IfOk result (λ runs. runs.shape ≡ matrix.now.shape) }
    ensures rows { let m = matrix.now.shape.m in
        IfOk result (λ runs. runs.rows
        ≡ combined_plan fold.now (runs_of 2 m (vectors_of 2 m matrix.now.rows))) }
{
    let mut runs = list_runs(alloc, matrix)?;
    for i in 0..runs.len() {
        let exchanged = exchanged_run(runs.row(i), fold);
        runs.push(exchanged)?;
    }
    Ok(runs)
}

/// The run with the levels of the folded factors exchanged.
fn exchanged_run(run: &Vector, fold: &Vector) -> Vector
    requires fold { length fold.now ≡ length run.now }
    requires levels { IsVector 2 (length run.now) run.now }
    ensures { result ≡ exchanged_run fold.now run.now }
{
    let mut exchanged = Vector::zero(run.len());
    for i in 0..run.len() {
        exchanged.set(i, exchanged_level(run.code(i), fold.code(i)));
    }
    exchanged
}

/// The level, or where the factor is folded the other one.
fn exchanged_level(level: u8, folded: u8) -> u8
    requires { level < 2 }
    ensures { result ≡ (if folded == 0 then level else 1 - level) }
{
    if folded == 0 { level } else { 1 - level }
}
