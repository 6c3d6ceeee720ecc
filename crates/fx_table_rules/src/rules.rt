ghost use Rattle.std.specs.Prelude.{◌≡◌, ◌<◌, ◌≤◌, ◌+◌, ◌*◌, ◌^◌, ◌==◌, if◌then◌else◌, IsTrue, IfSome, All, length, map};
ghost use Rattle.fx_vectors.specs.Shape.{IsShape};
ghost use Rattle.fx_tree.specs.Introduced.{introduced};
ghost use Rattle.fx_rules.specs.Stepped.{IsStepped};
ghost use Rattle.fx_rules.specs.Laws.{IsGiven};
ghost use Rattle.fx_strata.specs.Images.{moved_rows};
ghost use Rattle.fx_table_book.specs.Tables.{strata_of, IsBase};
ghost use Rattle.fx_table_rules.specs.Rules.{block_factors, rule_shape, all_rows, AreRulesOf};

use crate::forms::forms_for;
use arrayvec::ArrayVec;
use fx_strata::moved_row;
use fx_table_book::Base;
use fx_vectors::{MOST_FACTORS, MOST_FACTORS_IN_BLOCKS, Matrix, Shape};

/// The rule matrix of a canonical design with these rows, as a listing prints it: over the first independent factors,
/// with block factors after the others. None where they are not such rows, or there are too many factors for a matrix
/// with block factors.
pub fn rule_matrix(base: Base, rows: &[u16]) -> Option<Matrix>
    requires { IsBase base }
    ensures shape { IfSome result (λ matrix. matrix.shape ≡ rule_shape base) }
    ensures given { IfSome result (λ matrix. IsGiven matrix.shape matrix.rows) }
    ensures indexes { IfSome result (λ matrix. introduced base.q 0 matrix.rows ≡ base.m) }
    ensures rules { IfSome result (λ matrix. AreRulesOf (strata_of base) rows.now matrix.rows) }
{
    if !are_rows(base, rows) {
        return None;
    }
    let all = all_rows(base, rows);
    let forms = forms_for(base, all.as_slice());
    let matrix = changed(base, forms.as_slice(), all.as_slice());
    if are_rules(&matrix) {
        Some(matrix)
    } else {
        None
    }
}

/// Whether these can be the rows of a design that a rule matrix can be made of.
fn are_rows(base: Base, rows: &[u16]) -> bool
    requires { IsBase base }
    ensures shape { IsTrue result → IsShape (rule_shape base) }
    ensures count { IsTrue result → length rows.now ≡ base.w + base.n }
    ensures below { IsTrue result → All (λ r. r < base.q ^ base.m) rows.now }
{
    let shape = rule_shape(base);
    if !fits_blocks(shape) {
        return false;
    }
    rows.len() == usize::from(shape.s) && are_below(rows, base.shape().runs())
}

/// Whether there are no block factors, or not too many factors with them.
fn fits_blocks(shape: Shape) -> bool
    ensures { IsTrue result → 0 < shape.t → shape.s ≤ MOST_FACTORS_IN_BLOCKS }
{
    shape.t == 0 || usize::from(shape.s) <= MOST_FACTORS_IN_BLOCKS
}

fn are_below(rows: &[u16], runs: u16) -> bool
    ensures { IsTrue result → All (λ r. r < runs) rows.now }
{
    for row in rows {
        if *row >= runs {
            return false;
        }
    }
    true
}

fn rule_shape(base: Base) -> Shape
    requires { IsBase base }
    ensures { result ≡ rule_shape base }
{
    Shape {
        t: block_factors(base),
        ..base.shape()
    }
}

fn block_factors(base: Base) -> u8
    ensures { result ≡ block_factors (strata_of base) }
{
    if base.w == 0 { base.h } else { 0 }
}

/// The rows of the factors, and those of the block factors.
fn all_rows(base: Base, rows: &[u16]) -> ArrayVec<u16, MOST_FACTORS>
    requires base { IsBase base }
    requires few { length rows.now + block_factors (strata_of base) ≤ MOST_FACTORS }
    requires below { All (λ r. r < base.q ^ base.m) rows.now }
    ensures all { result.items ≡ all_rows (strata_of base) rows.now }
    ensures below { All (λ r. r < base.q ^ base.m) result.items }
    ensures count { length result.items ≡ length rows.now + block_factors (strata_of base) }
{
    let mut all = rows_of(rows);
    for i in 0..block_factors(base) {
        all.push(base.power(i));
    }
    all
}

fn rows_of(rows: &[u16]) -> ArrayVec<u16, MOST_FACTORS>
    requires { length rows.now ≤ MOST_FACTORS }
    ensures { result.items ≡ rows.now }
{
    let mut copy = ArrayVec::new();
    for row in rows {
        copy.push(*row);
    }
    copy
}

/// What a change of the run indexes makes of all rows.
fn changed(base: Base, forms: &[u16], rows: &[u16]) -> Matrix
    requires base { IsBase base }
    requires shape { IsShape (rule_shape base) }
    requires forms { length forms.now ≡ base.m }
    requires small { All (λ a. a < base.q ^ base.m) forms.now }
    requires count { length rows.now ≡ base.w + base.n + block_factors (strata_of base) }
    requires below { All (λ r. r < base.q ^ base.m) rows.now }
    ensures { result
        ≡ record { shape = rule_shape base; rows = moved_rows (strata_of base) forms.now rows.now } }
{
    let shape = base.shape();
    let mut matrix = Matrix::new(rule_shape(base));
    for row in rows {
        matrix.push(moved_row(shape, forms, *row));
    }
    matrix
}

/// Whether each row is the next unit vector or a combination of those before, and all unit vectors come.
fn are_rules(matrix: &Matrix) -> bool
    ensures stepped { IsTrue result → IsStepped matrix.now.shape.q 0 matrix.now.rows }
    ensures all { IsTrue result
        → matrix.now.shape.q ^ introduced matrix.now.shape.q 0 matrix.now.rows ≡ matrix.now.shape.q ^ matrix.now.shape.m }
{
    let shape = matrix.shape();
    let mut next = 1;
    for i in 0..matrix.len() {
        if matrix.row(i) > next {
            return false;
        }
        next = next_unit(shape.q, next, matrix.row(i));
    }
    next == shape.runs()
}

/// The next unit vector after a row.
fn next_unit(q: u8, next: u16, row: u16) -> u16
    requires q { q ≤ 9 }
    requires row { row < 1024 }
    ensures { result ≡ (if row == next then next * q else next) }
{
    if row == next {
        return next * u16::from(q);
    }
    next
}
