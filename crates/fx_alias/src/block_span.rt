ghost use Rattle.std.specs.Prelude.{◌≡◌, ◌<◌, ◌≤◌, ◌+◌, ◌^◌, length};
ghost use Rattle.fx_alias.specs.BlockSpans.{IsBlockSpan, block_sum};

use crate::class::sum_of_rules;
use fx_points::PointSet;
use fx_vectors::{Matrix, Vector};

/// The points that the block rules span: a component is constant inside each block exactly where its
/// sum is one of them.
pub(crate) fn block_span(matrix: &Matrix) -> PointSet
    requires complete { length matrix.now.rows ≡ matrix.now.shape.s + matrix.now.shape.t }
    requires few { matrix.now.shape.q ^ matrix.now.shape.t ≤ 1024 }
    ensures { IsBlockSpan matrix.now result }
{
    let shape = matrix.shape();
    let mut span = PointSet::empty(shape.field(), shape.m);
    for place in 0..u16::from(shape.q).pow(u32::from(shape.t)) {
        span.insert(block_sum(matrix, place));
    }
    span
}

/// The number of the sum of the block rules, each times its code of the number `place`.
fn block_sum(matrix: &Matrix, place: u16) -> u16
    requires complete { length matrix.now.rows ≡ matrix.now.shape.s + matrix.now.shape.t }
    requires place { place < matrix.now.shape.q ^ matrix.now.shape.t }
    ensures sum { result ≡ block_sum matrix.now place }
    ensures below { result < 1024 }
{
    let shape = matrix.shape();
    let field = shape.field();
    let codes = Vector::of_number(field, usize::from(shape.t), u128::from(place));
    sum_of_rules(matrix, usize::from(shape.s), &codes).number(field) as u16
}
