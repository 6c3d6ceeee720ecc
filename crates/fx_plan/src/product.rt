ghost use Rattle.std.specs.Prelude.{◌≡◌, ◌*◌, ◌/◌, ◌%◌, ◌^◌, ◌<◌, ◌∷◌, ◌++◌, [], All, IfOk, OnOk, length, map};
ghost use Rattle.fx_plan.specs.Products.{picked, replicated, run_of};

use crate::assembled::Plan;
use crate::coded::CodedTable;
use fx_base::NoMemory;
use std::alloc::Global;

/// The rows of these numbers, which count from 0, of the runs that are repeated by two plans, in this
/// order.
pub(crate) fn product(
    alloc: Global,
    order: Vec<u32>,
    runs: CodedTable,
    inner: Plan,
    outer: Plan,
) -> Result<Plan, NoMemory>
    requires { let n = length runs.rows in
        All (λ r. r < n * length inner.rows * length outer.rows) order.items }
    ensures { IfOk result (λ plan. plan ≡ picked order.items (replicated runs inner outer)) }
{
    let sources = sources_of(alloc, order.as_slice(), inner.len(), runs.len())?;
    let inner = inner.picked(alloc, sources.inner.as_slice())?;
    let outer = outer.picked(alloc, sources.outer.as_slice())?;
    Plan::of(alloc, runs, sources.runs)?
        .beside(inner)?
        .beside(outer)
}

/// For each row of a product the numbers of its rows in the three tables.
#[derive(Drop)]
struct Sources {
    runs: Vec<u32>,
    inner: Vec<u32>,
    outer: Vec<u32>,
}

/// Where these rows of the product of n runs come from, where each run has `each` rows in succession.
fn sources_of(alloc: Global, order: &[u32], each: usize, n: usize) -> Result<Sources, NoMemory>
    requires each { 0 < length order.now → 0 < each }
    requires runs { 0 < length order.now → 0 < n }
    ensures runs { IfOk result (λ s. s.runs.items ≡ map (run_of each n) order.now) }
    ensures inner { IfOk result (λ s. s.inner.items ≡ map (λ r. r % each) order.now) }
    ensures outer { IfOk result (λ s. s.outer.items ≡ map (λ r. r / each / n) order.now) }
{
    let mut sources = Sources {
        runs: Vec::new(alloc),
        inner: Vec::new(alloc),
        outer: Vec::new(alloc),
    };
    for r in order {
        let run = *r as usize / each;
        put(&mut sources.runs, run % n)?;
        put(&mut sources.inner, *r as usize % each)?;
        put(&mut sources.outer, run / n)?;
    }
    Ok(sources)
}

fn put(numbers: &mut Vec<u32>, n: usize) -> Result<(), NoMemory>
    requires { n < 2 ^ 32 }
    ensures { OnOk result (numbers.new.items ≡ numbers.old.items ++ n ∷ []) }
{
    match numbers.push(n as u32) {
        Ok(()) => Ok(()),
        Err(_) => Err(NoMemory),
    }
}
