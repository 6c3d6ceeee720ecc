ghost use Rattle.std.specs.Prelude.{◌≡◌, ◌≢◌, ◌<◌, ◌≤◌, [], All, IfOk, MatchOption, length, slice_index, slice_index_or, true};
ghost use Rattle.fx_designs.specs.Vectors.{IsVector, combination, dot};
ghost use Rattle.fx_judge.specs.Bases.{column, grown, new_direction, off_of, without_part};
ghost use Rattle.fx_judge.specs.Rules.{IsException, gives};

use fx_base::{Items, NoMemory};
use fx_galois::Field;
use fx_vectors::Vector;
use std::alloc::Global;

/// The entries of the rows at `i`.
pub(crate) fn column(rows: &Items<Vector>, i: usize) -> Vector
    requires few { length rows.now ≤ 40 }
    requires long { All (λ r. i < length r) rows.now }
    ensures { result ≡ column i rows.now }
{
    let mut column = Vector::zero(rows.len());
    for k in 0..rows.len() {
        column.set(k, rows.get(k).code(i));
    }
    column
}

/// The place of the first difference d at which u.d is not its code at `i`.
pub(crate) fn exception(
    field: Field,
    differences: &Items<Vector>,
    u: &Vector,
    i: usize,
) -> Option<usize>
    requires vector { IsVector field (length u.now) u.now }
    requires each { All (λ d. IsVector field (length u.now) d) differences.now }
    requires there { i < length u.now }
    ensures { MatchOption result (gives field differences.now i u.now ≡ true)
        (IsException field differences.now u.now i) }
{
    for k in 0..differences.len() {
        let d = differences.get(k);
        if u.dot(field, d) != d.code(i) {
            return Some(k);
        }
    }
    None
}

/// The direction in which `d` is off what the directions make of it, where it is off at `i`.
pub(crate) fn direction(field: Field, rows: &Items<Vector>, d: &Vector, i: usize) -> Vector
    requires vector { IsVector field (length d.now) d.now }
    requires each { All (λ r. IsVector field (length d.now) r) rows.now }
    requires same { length rows.now ≡ length d.now }
    requires there { i < length d.now }
    requires off { 0 < slice_index (off_of field (length d.now) rows.now d.now) i }
    ensures { result ≡ new_direction field (length d.now) (off_of field (length d.now) rows.now d.now) i }
{
    // Its order, once read, is known to be one of the seven.
    let _known = field.q();
    let sum = combination(field, rows, d);
    let mut off = copy_of(d);
    off.add_scaled(field, &sum, field.neg(1));
    let factor = field.inv(off.code(i));
    let mut direction = Vector::zero(d.len());
    direction.add_scaled(field, &off, factor);
    direction
}

/// The sum of the rows, each times the code of `u` at its place.
fn combination(field: Field, rows: &Items<Vector>, u: &Vector) -> Vector
    requires vector { IsVector field (length u.now) u.now }
    requires each { All (λ r. IsVector field (length u.now) r) rows.now }
    requires same { length rows.now ≡ length u.now }
    ensures sum { result ≡ combination field (length u.now) u.now rows.now }
    ensures vector { IsVector field (length u.now) result }
{
    let _known = field.q();
    let mut sum = Vector::zero(u.len());
    for k in 0..u.len() {
        sum.add_scaled(field, rows.get(k), u.code(k));
    }
    sum
}

/// A copy.
pub(crate) fn copy_of(v: &Vector) -> Vector
    ensures { result ≡ v.now }
{
    let mut copy = Vector::zero(v.len());
    for k in 0..v.len() {
        copy.set(k, v.code(k));
    }
    copy
}

/// The directions with `e` as that of factor `i`, and the others without their part along it.
pub(crate) fn grown(
    alloc: Global,
    field: Field,
    rows: &Items<Vector>,
    e: &Vector,
    i: usize,
) -> Result<Items<Vector>, NoMemory>
    requires vector { IsVector field (length e.now) e.now }
    requires each { All (λ r. IsVector field (length e.now) r) rows.now }
    requires there { i < length e.now }
    ensures { IfOk result (λ next. next ≡ grown field rows.now e.now i) }
{
    let mut next = Items::new(alloc);
    for k in 0..rows.len() {
        next.push(changed(field, rows.get(k), e, i, k))?;
    }
    Ok(next)
}

/// The direction of factor `k` in place of `r`.
fn changed(field: Field, r: &Vector, e: &Vector, i: usize, k: usize) -> Vector
    requires vector { IsVector field (length e.now) e.now }
    requires row { IsVector field (length e.now) r.now }
    requires there { i < length e.now }
    ensures same { k ≡ i → result ≡ e.now }
    ensures other { k ≢ i → result ≡ without_part field e.now i r.now }
{
    let _known = field.q();
    if k == i {
        return copy_of(e);
    }
    let mut next = copy_of(r);
    next.add_scaled(field, e, field.neg(r.code(i)));
    next
}
