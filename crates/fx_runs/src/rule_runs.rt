ghost use Rattle.std.specs.Prelude.{◌≡◌, ◌+◌, ◌^◌, ◌<◌, ◌≤◌, All, IfOk, length};
ghost use Rattle.fx_designs.specs.Vectors.{IsVector, vectors_of};
ghost use Rattle.fx_designs.specs.Runs.{levels_at, runs_of};
ghost use Rattle.fx_laws.specs.Facts.{point_of};
ghost use Rattle.fx_vectors.specs.declared.shape.TheConstants.{MOST_FACTORS};

use crate::runs::Runs;
use fx_base::{Items, NoMemory};
use fx_galois::Field;
use fx_vectors::{Matrix, Vector};
use std::alloc::Global;

/// The runs that a rule matrix lists, which has all rows of its shape: one run for each point of
/// the q^m, of which the first index changes slowest. Each rule gives the sum of its codes times
/// the indexes.
pub fn list_runs(alloc: Global, matrix: &Matrix) -> Result<Runs, NoMemory>
    requires complete { length matrix.now.rows ≡ matrix.now.shape.s + matrix.now.shape.t }
    ensures shape { IfOk result (λ runs. runs.shape ≡ matrix.now.shape) }
    ensures rows { let q = matrix.now.shape.q in let m = matrix.now.shape.m in
        IfOk result (λ runs. runs.rows ≡ runs_of q m (vectors_of q m matrix.now.rows)) }
{
    let shape = matrix.shape();
    let field = shape.field();
    let rules = rules_of(alloc, field, matrix)?;
    let mut runs = Runs::new(alloc, shape);
    for k in 0..shape.runs() {
        runs.push(levels(field, &rules, &point(field, shape.m, k)))?;
    }
    Ok(runs)
}

/// The vectors of the rows.
fn rules_of(alloc: Global, field: Field, matrix: &Matrix) -> Result<Items<Vector>, NoMemory>
    requires order { field ≡ matrix.now.shape.q }
    ensures { IfOk result (λ rules. rules ≡ vectors_of field matrix.now.shape.m matrix.now.rows) }
{
    let m = usize::from(matrix.shape().m);
    let mut rules = Items::new(alloc);
    for i in 0..matrix.len() {
        rules.push(Vector::of_number(field, m, u128::from(matrix.row(i))))?;
    }
    Ok(rules)
}

/// The levels and block values that the rules give at the point p.
fn levels(field: Field, rules: &Items<Vector>, p: &Vector) -> Vector
    requires few { length rules.now ≤ MOST_FACTORS }
    requires point { IsVector field (length p.now) p.now }
    requires rules { All (λ r. IsVector field (length p.now) r) rules.now }
    ensures { result ≡ levels_at field rules.now p.now }
{
    let mut levels = Vector::zero(rules.len());
    for i in 0..rules.len() {
        levels.set(i, rules.get(i).dot(field, p));
    }
    levels
}

/// The run indexes of run k, counted from 0.
fn point(field: Field, m: u8, k: u16) -> Vector
    requires room { m ≤ MOST_FACTORS }
    requires runs { field ^ m ≤ 1024 }
    requires below { k < field ^ m }
    ensures indexes { result ≡ point_of field m k }
    ensures vector { IsVector field m result }
{
    let q = u16::from(field.q());
    let len = usize::from(m);
    // As many runs have the same first indexes, and `rest` is the place of run k among them.
    let mut size = q.pow(u32::from(m));
    let mut rest = k;
    let mut point = Vector::zero(len);
    for i in 0..len {
        size /= q;
        point.set(i, (rest / size) as u8);
        rest %= size;
    }
    point
}
