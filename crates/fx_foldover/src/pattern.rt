ghost use Rattle.std.specs.Prelude.{◌≡◌, ◌+◌, ◌*◌, ◌^◌, ◌<◌, ◌≤◌, [], IfOk, length, slice_index, take};
ghost use Rattle.fx_designs.specs.Vectors.{vectors_of};
ghost use Rattle.fx_vectors.specs.Shape.{IsShape};
ghost use Rattle.fx_foldover.specs.Foldovers.{combined_pattern, combined_row, combined_rows};
ghost use Rattle.fx_foldover.specs.Counts.{AreCounts};

use fx_base::{NoMemory, Values};
use fx_vectors::{Matrix, Pattern, Shape, Vector};
use std::alloc::Global;

/// The word-length pattern B_1 to B_s of the combined plan of a fold-over, for a design of two levels
/// without block factors: B_k counts the vectors of weight k over the factors that are constant
/// over both halves together. The folded factors are those whose code in `fold` is not 0. At the
/// limits of a shape the counts take 2 MB.
///
/// # Errors
///
/// `NoMemory`.
pub fn fold_pattern(alloc: Global, matrix: &Matrix, fold: &Vector) -> Result<Pattern, NoMemory>
    requires levels { matrix.now.shape.q ≡ 2 }
    requires no_blocks { matrix.now.shape.t ≡ 0 }
    requires complete { length matrix.now.rows ≡ matrix.now.shape.s }
    requires fold { length fold.now ≡ matrix.now.shape.s }
    ensures { let m = matrix.now.shape.m in
        IfOk result (λ pattern. pattern ≡ combined_pattern m fold.now (vectors_of 2 m matrix.now.rows)) }
{
    let mut counts = counts_of_no_rows(alloc, matrix.shape())?;
    for i in 0..matrix.len() {
        add_row(counts.as_mut_slice(), matrix, fold, i);
    }
    pattern_of_counts(alloc, counts.as_slice(), matrix, fold)
}

/// How many points there are with one run index more.
fn point_count(shape: Shape) -> usize
    requires shaped { IsShape shape }
    requires levels { shape.q ≡ 2 }
    ensures count { result ≡ 2 ^ (shape.m + 1) }
    ensures fits { result ≤ 2048 }
{
    2 * usize::from(shape.runs())
}

/// The counts of no rows, over which the one vector has weight and sum zero.
fn counts_of_no_rows(alloc: Global, shape: Shape) -> Result<Vec<u128>, NoMemory>
    requires shaped { IsShape shape }
    requires levels { shape.q ≡ 2 }
    ensures { IfOk result (λ counts. AreCounts (shape.m + 1) shape.s [] counts.items) }
{
    let len = (usize::from(shape.s) + 1) * point_count(shape);
    let mut counts = match vec![in alloc; 0u128; len] {
        Ok(counts) => counts,
        Err(_) => return Err(NoMemory),
    };
    counts[0] = 1;
    Ok(counts)
}

/// Counts the vectors over the rows up to the one at `i`, where those over the rows before it are
/// counted.
fn add_row(counts: &mut [u128], matrix: &Matrix, fold: &Vector, i: usize)
    requires levels { matrix.now.shape.q ≡ 2 }
    requires no_blocks { matrix.now.shape.t ≡ 0 }
    requires fold { length fold.now ≡ length matrix.now.rows }
    requires row { i < length matrix.now.rows }
    requires counts { AreCounts (matrix.now.shape.m + 1) matrix.now.shape.s
        (take i (combined_rows fold.now matrix.now.rows)) counts.old }
    ensures { AreCounts (matrix.now.shape.m + 1) matrix.now.shape.s
        (take (i + 1) (combined_rows fold.now matrix.now.rows)) counts.new }
{
    let points = point_count(matrix.shape());
    let row = combined_row(matrix, fold, i);
    // From the greatest weight down, so that the counts of the weight below are still those of the
    // rows before.
    for place in (points..counts.len()).rev() {
        let x = place % points;
        counts[place] += counts[place - points - x + (x ^ row)];
    }
}

/// The number of the row at `i` with one run index more in front, of which a folded factor has 1.
fn combined_row(matrix: &Matrix, fold: &Vector, i: usize) -> usize
    requires levels { matrix.now.shape.q ≡ 2 }
    requires fold { length fold.now ≡ length matrix.now.rows }
    requires row { i < length matrix.now.rows }
    ensures row { result ≡ combined_row (slice_index fold.now i) (slice_index matrix.now.rows i) }
    ensures below { result < 2 ^ (matrix.now.shape.m + 1) }
{
    let row = 2 * usize::from(matrix.row(i));
    if fold.code(i) == 0 { row } else { row + 1 }
}

/// The counts of all rows at the sum zero, from weight 1 on.
fn pattern_of_counts(
    alloc: Global,
    counts: &[u128],
    matrix: &Matrix,
    fold: &Vector,
) -> Result<Pattern, NoMemory>
    requires levels { matrix.now.shape.q ≡ 2 }
    requires no_blocks { matrix.now.shape.t ≡ 0 }
    requires complete { length matrix.now.rows ≡ matrix.now.shape.s }
    requires fold { length fold.now ≡ matrix.now.shape.s }
    requires counts { AreCounts (matrix.now.shape.m + 1) matrix.now.shape.s
        (combined_rows fold.now matrix.now.rows) counts.now }
    ensures { let m = matrix.now.shape.m in
        IfOk result (λ pattern. pattern ≡ combined_pattern m fold.now (vectors_of 2 m matrix.now.rows)) }
{
    let points = point_count(matrix.shape());
    let mut pattern = Values::new(alloc);
    for i in 0..matrix.len() {
        pattern.push(counts[(i + 1) * points])?;
    }
    Ok(pattern)
}
