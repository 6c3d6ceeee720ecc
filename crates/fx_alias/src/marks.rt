ghost use Rattle.std.specs.Prelude.{◌≡◌, ◌≤◌, ◌+◌, ◌^◌, false, All, IfOk, length, map};
ghost use Rattle.fx_designs.specs.Vectors.{IsVector};
ghost use Rattle.fx_runs.specs.Runs.{design_of};
ghost use Rattle.fx_alias.specs.declared.marks.BlockMarks.TheVariants.{With};
ghost use Rattle.fx_alias.specs.Blocked.{is_blocked, is_marked};

use crate::block_span::block_span;
use crate::blocked::is_blocked;
use fx_base::{Items, NoMemory, Values};
use fx_vectors::{Matrix, Vector};
use std::alloc::Global;

/// Whether a listing of aliases marks the classes that are confounded with blocks.
#[derive(Clone, Copy, PartialEq, Eq)]
pub enum BlockMarks {
    Without,
    With,
}

/// Which of the components are marked.
pub(crate) fn marked(
    alloc: Global,
    marks: BlockMarks,
    matrix: &Matrix,
    components: &Items<Vector>,
) -> Result<Values<bool>, NoMemory>
    requires each { All (λ u. IsVector matrix.now.shape.q matrix.now.shape.s u) components.now }
    requires complete { length matrix.now.rows ≡ matrix.now.shape.s + matrix.now.shape.t }
    requires few { marks ≡ With → matrix.now.shape.q ^ matrix.now.shape.t ≤ 1024 }
    ensures { IfOk result (λ found. found
        ≡ map (is_marked marks (design_of matrix.now)) components.now) }
{
    match marks {
        BlockMarks::Without => unmarked(alloc, components),
        BlockMarks::With => confounded(alloc, matrix, components),
    }
}

/// That none of the components is marked.
fn unmarked(alloc: Global, components: &Items<Vector>) -> Result<Values<bool>, NoMemory>
    ensures { IfOk result (λ found. found ≡ map (λ u. false) components.now) }
{
    let mut found = Values::new(alloc);
    for _u in components.as_slice() {
        found.push(false)?;
    }
    Ok(found)
}

/// Which of the components are confounded with blocks.
fn confounded(
    alloc: Global,
    matrix: &Matrix,
    components: &Items<Vector>,
) -> Result<Values<bool>, NoMemory>
    requires each { All (λ u. IsVector matrix.now.shape.q matrix.now.shape.s u) components.now }
    requires complete { length matrix.now.rows ≡ matrix.now.shape.s + matrix.now.shape.t }
    requires few { matrix.now.shape.q ^ matrix.now.shape.t ≤ 1024 }
    ensures { IfOk result (λ found. found ≡ map (is_blocked (design_of matrix.now)) components.now) }
{
    let span = block_span(matrix);
    let mut found = Values::new(alloc);
    for u in components.as_slice() {
        found.push(is_blocked(matrix, &span, u))?;
    }
    Ok(found)
}
