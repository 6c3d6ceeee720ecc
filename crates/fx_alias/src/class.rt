ghost use Rattle.std.specs.Prelude.{◌≡◌, ◌<◌, ◌≤◌, ◌^◌, ◌+◌, ◌==◌, IfOk, All, drop, length, map};
ghost use Rattle.fx_designs.specs.Vectors.{IsVector, combination, vectors_of};
ghost use Rattle.fx_designs.specs.Runs.{is_constant, runs_of};
ghost use Rattle.fx_alias.specs.Classes.{class_number};
ghost use Rattle.fx_alias.specs.ClassNumbers.{number_by};

use fx_base::{Items, NoMemory, Values};
use fx_vectors::{Matrix, Vector};
use std::alloc::Global;

/// The class number of each component.
pub(crate) fn class_numbers(
    alloc: Global,
    matrix: &Matrix,
    components: &Items<Vector>,
) -> Result<Values<u16>, NoMemory>
    requires each { All (λ u. IsVector matrix.now.shape.q matrix.now.shape.s u) components.now }
    requires complete { matrix.now.shape.s ≤ length matrix.now.rows }
    ensures numbers { IfOk result (λ numbers. numbers ≡ map (number_by matrix.now) components.now) }
    ensures below { IfOk result (λ numbers.
        All (λ z. z < matrix.now.shape.q ^ matrix.now.shape.m) numbers) }
{
    let mut numbers = Values::new(alloc);
    for u in components.as_slice() {
        numbers.push(class_number(matrix, u))?;
    }
    Ok(numbers)
}

/// The class number of a vector over the factors: that of the normal multiple of its sum, or 0
/// where the sum is zero.
pub(crate) fn class_number(matrix: &Matrix, u: &Vector) -> u16
    requires vector { IsVector matrix.now.shape.q matrix.now.shape.s u.now }
    requires complete { matrix.now.shape.s ≤ length matrix.now.rows }
    ensures number { result ≡ number_by matrix.now u.now }
    ensures constant { let q = matrix.now.shape.q in let m = matrix.now.shape.m in
        is_constant q u.now (runs_of q m (vectors_of q m matrix.now.rows)) ≡ (result == 0) }
    ensures below { result < matrix.now.shape.q ^ matrix.now.shape.m }
{
    let field = matrix.shape().field();
    let sum = sum_of_rules(matrix, 0, u);
    if sum.weight() == 0 {
        return 0;
    }
    sum.normal(field).number(field) as u16
}

/// The sum of the rules from `first` on, each times the code of `u` at its place.
pub(crate) fn sum_of_rules(matrix: &Matrix, first: usize, u: &Vector) -> Vector
    requires vector { IsVector matrix.now.shape.q (length u.now) u.now }
    requires complete { first + length u.now ≤ length matrix.now.rows }
    ensures sum { let q = matrix.now.shape.q in let m = matrix.now.shape.m in
        result ≡ combination q m u.now (vectors_of q m (drop first matrix.now.rows)) }
    ensures vector { IsVector matrix.now.shape.q matrix.now.shape.m result }
{
    let shape = matrix.shape();
    let field = shape.field();
    let m = usize::from(shape.m);
    let mut sum = Vector::zero(m);
    for i in 0..u.len() {
        let row = Vector::of_number(field, m, u128::from(matrix.row(first + i)));
        sum.add_scaled(field, &row, u.code(i));
    }
    sum
}
