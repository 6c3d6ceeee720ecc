ghost use Rattle.std.specs.Prelude.{◌≡◌, ◌+◌, length};
ghost use Rattle.fx_vectors.specs.Shape.{IsShape};

use fx_foldover::{fold_pattern, fold_runs};
use fx_runs::Runs;
use fx_vectors::{MOST_FACTORS, Matrix, Shape, Vector};
use std::process::Abort;

/// Five factors in eight runs.
const FIVE: Shape = Shape {
    q: 2,
    m: 3,
    s: 5,
    t: 0,
};

/// A, B, C, D = ABC and E = BC, with the words ABCD, BCE and ADE.
const FIVE_ROWS: [u16; 5] = [1, 2, 4, 7, 6];

/// As many factors as there may be, in as many runs.
const MOST: Shape = Shape {
    q: 2,
    m: 10,
    s: 63,
    t: 0,
};

/// The matrix of these rows.
fn matrix_of(rt: &impl Abort, shape: Shape, rows: &[u16]) -> Matrix
    requires { IsShape shape }
    ensures shape { result.shape ≡ shape }
    ensures complete { length result.rows ≡ shape.s + shape.t }
{
    let mut matrix = Matrix::new(shape);
    for row in rows {
        assert!(rt; matrix.len() < shape.rows() && *row < shape.runs());
        matrix.push(*row);
    }
    assert!(rt; matrix.len() == shape.rows());
    matrix
}

/// The vector of these codes.
fn vector_of(rt: &impl Abort, codes: &[u8]) -> Vector
    ensures { length result ≡ length codes.now }
{
    assert!(rt; codes.len() <= MOST_FACTORS);
    let mut vector = Vector::zero(codes.len());
    for (i, code) in codes.iter().enumerate() {
        vector.set(i, *code);
    }
    vector
}

/// Whether these are the levels of five factors.
fn has_rows(runs: &Runs, rows: &[[u8; 5]]) -> bool {
    for i in 0..runs.len() {
        let row = runs.row(i);
        if row.len() != 5 || i >= rows.len() {
            return false;
        }
        for k in 0..5 {
            if row.code(k) != rows[i][k] {
                return false;
            }
        }
    }
    runs.len() == rows.len()
}

#[test]
fn a_full_fold_exchanges_each_level_in_the_second_half(rt: HostRuntime) {
    let fold = vector_of(&rt, &[1, 1, 1, 1, 1]);
    let matrix = matrix_of(&rt, FIVE, &FIVE_ROWS);
    let runs = fold_runs(rt.alloc(), &matrix, &fold).expect(&rt, "memory");
    let rows = [
        [0, 0, 0, 0, 0],
        [0, 0, 1, 1, 1],
        [0, 1, 0, 1, 1],
        [0, 1, 1, 0, 0],
        [1, 0, 0, 1, 0],
        [1, 0, 1, 0, 1],
        [1, 1, 0, 0, 1],
        [1, 1, 1, 1, 0],
        [1, 1, 1, 1, 1],
        [1, 1, 0, 0, 0],
        [1, 0, 1, 0, 0],
        [1, 0, 0, 1, 1],
        [0, 1, 1, 0, 1],
        [0, 1, 0, 1, 0],
        [0, 0, 1, 1, 0],
        [0, 0, 0, 0, 1],
    ];
    assert!(rt; has_rows(&runs, &rows));
}

#[test]
fn a_fold_of_one_factor_exchanges_its_levels_alone(rt: HostRuntime) {
    let fold = vector_of(&rt, &[1, 0, 0, 0, 0]);
    let matrix = matrix_of(&rt, FIVE, &FIVE_ROWS);
    let runs = fold_runs(rt.alloc(), &matrix, &fold).expect(&rt, "memory");
    let rows = [
        [0, 0, 0, 0, 0],
        [0, 0, 1, 1, 1],
        [0, 1, 0, 1, 1],
        [0, 1, 1, 0, 0],
        [1, 0, 0, 1, 0],
        [1, 0, 1, 0, 1],
        [1, 1, 0, 0, 1],
        [1, 1, 1, 1, 0],
        [1, 0, 0, 0, 0],
        [1, 0, 1, 1, 1],
        [1, 1, 0, 1, 1],
        [1, 1, 1, 0, 0],
        [0, 0, 0, 1, 0],
        [0, 0, 1, 0, 1],
        [0, 1, 0, 0, 1],
        [0, 1, 1, 1, 0],
    ];
    assert!(rt; has_rows(&runs, &rows));
}

#[test]
fn a_full_fold_leaves_the_words_of_even_weight(rt: HostRuntime) {
    let fold = vector_of(&rt, &[1, 1, 1, 1, 1]);
    let matrix = matrix_of(&rt, FIVE, &FIVE_ROWS);
    let pattern = fold_pattern(rt.alloc(), &matrix, &fold).expect(&rt, "memory");
    assert!(rt; pattern.as_slice() == [0, 0, 0, 1, 0].as_slice());
}

#[test]
fn a_fold_of_one_factor_leaves_the_words_without_it(rt: HostRuntime) {
    let fold = vector_of(&rt, &[1, 0, 0, 0, 0]);
    let matrix = matrix_of(&rt, FIVE, &FIVE_ROWS);
    let pattern = fold_pattern(rt.alloc(), &matrix, &fold).expect(&rt, "memory");
    assert!(rt; pattern.as_slice() == [0, 0, 1, 0, 0].as_slice());
}

/// The words of the 63 rows are those of the Hamming code of length 63: 651 of weight 3, each factor in
/// 31 of them, 9,765 of weight 4, as many of weight 59, 651 of weight 60, and the one of all factors.
#[test]
fn sixty_three_factors_in_1024_runs_are_folded(rt: HostRuntime) {
    let mut rows = [0u16; 63];
    for i in 0..63 {
        rows[i] = i as u16 + 1;
    }
    let matrix = matrix_of(&rt, MOST, &rows);
    let full = vector_of(&rt, &[1; 63]);
    let pattern = fold_pattern(rt.alloc(), &matrix, &full).expect(&rt, "memory");
    let words = pattern.as_slice();
    assert!(rt; words.len() == 63 && words[2] == 0 && words[3] == 9765);
    assert!(rt; words[58] == 0 && words[59] == 651 && words[62] == 0);
    let mut first = Vector::zero(63);
    first.set(0, 1);
    let pattern = fold_pattern(rt.alloc(), &matrix, &first).expect(&rt, "memory");
    let words = pattern.as_slice();
    assert!(rt; words.len() == 63 && words[2] == 620 && words[62] == 0);
    let runs = fold_runs(rt.alloc(), &matrix, &full).expect(&rt, "memory");
    assert!(rt; runs.len() == 2048);
    let exchanged = runs.row(1024);
    assert!(rt; exchanged.len() == 63 && exchanged.weight() == 63);
}
