ghost use Rattle.std.specs.Prelude.{◌≡◌, ◌<◌, ◌^◌, All, length};
ghost use Rattle.fx_vectors.specs.Shape.{IsShape, dimensions_of};
ghost use Rattle.fx_strata.specs.Changes.{moved};

use fx_vectors::{Shape, Vector};

/// What a change of the run indexes, given by the numbers of m vectors, makes of a row, as a normal
/// row.
pub fn moved_row(shape: Shape, change: &[u16], row: u16) -> u16
    requires shape { IsShape shape }
    requires count { length change.now ≡ shape.m }
    requires below { All (λ a. a < shape.q ^ shape.m) change.now }
    requires row { row < shape.q ^ shape.m }
    ensures { result ≡ moved (dimensions_of shape) change.now row }
{
    let field = shape.field();
    let m = usize::from(shape.m);
    let vector = Vector::of_number(field, m, u128::from(row));
    let mut image = Vector::zero(m);
    for i in 0..m {
        let form = Vector::of_number(field, m, u128::from(change[i]));
        image.set(i, form.dot(field, &vector));
    }
    if image.weight() == 0 {
        return 0;
    }
    image.normal(field).number(field) as u16
}
