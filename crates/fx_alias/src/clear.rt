ghost use Rattle.std.specs.Prelude.{◌≡◌, ◌<◌, ◌≤◌, ◌+◌, ◌^◌, ◌==◌, ◌&&◌, not, All, IfOk, count_by, length, map, slice_index};
ghost use Rattle.std.specs.List.{range_with_len};
ghost use Rattle.fx_designs.specs.Runs.{is_constant, is_constant_in_blocks};
ghost use Rattle.fx_designs.specs.Vectors.{IsVector, weight};
ghost use Rattle.fx_runs.specs.Groups.{by_group};
ghost use Rattle.fx_runs.specs.Runs.{design_of};
ghost use Rattle.fx_alias.specs.BlockSpans.{IsBlockSpan};
ghost use Rattle.fx_alias.specs.ClassNumbers.{number_by};
ghost use Rattle.fx_alias.specs.Clear.{clear_of_weight, count_of_weight, short_components};

use crate::aliasing::by_number;
use crate::block_span::block_span;
use crate::blocked::factor_sum;
use crate::class::{class_number, class_numbers};
use fx_base::{Items, NoMemory};
use fx_components::list_components;
use fx_points::PointSet;
use fx_runs::Groups;
use fx_vectors::{Matrix, Vector};
use std::alloc::Global;

/// How many components of one and of two factors are clear.
#[derive(Clone, Copy)]
pub(crate) struct ClearCounts {
    /// Clear factors.
    pub(crate) factors: usize,
    /// Clear components of two factors.
    pub(crate) pairs: usize,
    /// Components of two factors.
    pub(crate) all_pairs: usize,
}

/// How many components of one and of two factors a design has clear.
///
/// The time that is taken grows with the number of components, whatever the number of runs.
pub(crate) fn clear_counts(alloc: Global, matrix: &Matrix) -> Result<ClearCounts, NoMemory>
    requires complete { length matrix.now.rows ≡ matrix.now.shape.s + matrix.now.shape.t }
    requires few { matrix.now.shape.q ^ matrix.now.shape.t ≤ 1024 }
    ensures factors { IfOk result (λ counts. let runs = design_of matrix.now in
        counts.factors ≡ clear_of_weight runs 1 (short_components runs)) }
    ensures pairs { IfOk result (λ counts. let runs = design_of matrix.now in
        counts.pairs ≡ clear_of_weight runs 2 (short_components runs)) }
    ensures all { IfOk result (λ counts.
        counts.all_pairs ≡ count_of_weight 2 (short_components (design_of matrix.now))) }
{
    let shape = matrix.shape();
    let components = list_components(alloc, shape.q, shape.s, shape.s.min(2))?;
    let values = class_numbers(alloc, matrix, &components)?;
    let numbers = values.as_slice();
    let groups = by_number(alloc, shape.runs(), numbers)?;
    let span = block_span(matrix);
    Ok(ClearCounts {
        factors: clear_of_weight(matrix, &span, &components, numbers, &groups, 1),
        pairs: clear_of_weight(matrix, &span, &components, numbers, &groups, 2),
        all_pairs: count_of_weight(2, &components),
    })
}

/// How many components there are of `k` factors.
fn count_of_weight(k: usize, components: &Items<Vector>) -> usize
    ensures { result ≡ count_of_weight k components.now }
{
    let mut count = 0;
    for u in components.as_slice() {
        if u.weight() == k {
            count += 1;
        }
    }
    count
}

/// How many components of `k` factors are clear. They are in groups by their class numbers.
fn clear_of_weight(
    matrix: &Matrix,
    span: &PointSet,
    components: &Items<Vector>,
    numbers: &[u16],
    groups: &Groups<usize>,
    k: usize,
) -> usize
    requires each { All (λ u. IsVector matrix.now.shape.q matrix.now.shape.s u) components.now }
    requires complete { length matrix.now.rows ≡ matrix.now.shape.s + matrix.now.shape.t }
    requires span { IsBlockSpan matrix.now span.now }
    requires numbers { numbers.now ≡ map (number_by matrix.now) components.now }
    requires below { All (λ z. z < matrix.now.shape.q ^ matrix.now.shape.m) numbers.now }
    requires groups { groups.now
        ≡ by_group (λ i. slice_index numbers.now i) (matrix.now.shape.q ^ matrix.now.shape.m)
        (range_with_len 0 (length numbers.now)) }
    ensures { result ≡ clear_of_weight (design_of matrix.now) k components.now }
{
    // The levels are the codes of a field.
    let _shape = matrix.shape();
    let mut count = 0;
    for i in 0..numbers.len() {
        let u = components.get(i);
        let alike = groups.get(usize::from(numbers[i])).len();
        if u.weight() == k && is_clear(matrix, span, u, alike) {
            count += 1;
        }
    }
    count
}

/// Whether a component is clear whose class has `alike` components.
fn is_clear(matrix: &Matrix, span: &PointSet, u: &Vector, alike: usize) -> bool
    requires span { IsBlockSpan matrix.now span.now }
    requires vector { IsVector matrix.now.shape.q matrix.now.shape.s u.now }
    requires complete { length matrix.now.rows ≡ matrix.now.shape.s + matrix.now.shape.t }
    ensures { let runs = design_of matrix.now in
        result ≡ (not (is_constant runs.shape.q u.now runs.rows)
        && (not (is_constant_in_blocks runs.shape.q runs.shape.s (runs.shape.q ^ runs.shape.t) u.now runs.rows)
        && (alike == 1))) }
{
    class_number(matrix, u) != 0 && !span.contains(factor_sum(matrix, u)) && alike == 1
}
