ghost use Rattle.std.specs.Prelude.{◌≡◌, ◌<◌, ◌^◌, [], ◌∷◌, length};

use fx_vectors::{Matrix, Shape, Vector};

/// A, B, C and D = ABC at two levels, in eight runs.
fn half() -> Matrix
    ensures { result
        ≡ record {
          shape = record { q = 2; m = 3; s = 4; t = 0 };
          rows = 1 ∷ 2 ∷ 4 ∷ 7 ∷ [];
        } }
{
    let mut half = Matrix::new(Shape {
        q: 2,
        m: 3,
        s: 4,
        t: 0,
    });
    half.push(1);
    half.push(2);
    half.push(4);
    half.push(7);
    half
}

/// The sum of the rows, each times its code in the vector of this number.
fn sum(matrix: &Matrix, number: u128) -> u16
    requires { number < matrix.now.shape.q ^ length matrix.now.rows }
{
    matrix.sum(&Vector::of_number(matrix.shape().field(), matrix.len(), number))
}

/// Whether these are the rows.
fn has_rows(matrix: &Matrix, rows: &[u16]) -> bool {
    for (i, row) in rows.iter().enumerate() {
        if i >= matrix.len() || matrix.row(i) != *row {
            return false;
        }
    }
    matrix.len() == rows.len()
}

#[test]
fn a_half_fraction_has_one_word(rt: HostRuntime) {
    let mut half = half();
    assert!(rt; has_rows(&half, &[1, 2, 4, 7]));
    assert!(rt; sum(&half, 15) == 0 && sum(&half, 3) == 3);
    half.pop();
    let other = half.with_row(6);
    assert!(rt; has_rows(&half, &[1, 2, 4]) && has_rows(&other, &[1, 2, 4, 6]));
}

/// At nine levels the rows (1, 0), (0, 1) and (3, 1), times 8, 1 and 3.
#[test]
fn a_sum_multiplies_in_the_field(rt: HostRuntime) {
    let shape = Shape {
        q: 9,
        m: 2,
        s: 3,
        t: 0,
    };
    let mut matrix = Matrix::new(shape);
    matrix.push(1);
    matrix.push(9);
    matrix.push(12);
    assert!(rt; sum(&matrix, 260) == 39);
}
