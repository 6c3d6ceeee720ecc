ghost use Rattle.std.specs.Prelude.{◌≡◌, ◌==◌, ◌<◌, ◌≤◌, ◌^◌, ◌++◌, length, map, IfOk, OnOk};
ghost use Rattle.std.specs.List.{list_all};
ghost use Rattle.fx_vectors.specs.Shape.{IsShape};
ghost use Rattle.fx_table_lines.specs.Listing.{is_unit, place_of, row_name, rule_of, rule_text, rules_from, rules_text, some_rules, unit_names};

use fx_base::{Bytes, NoMemory, put, put_number};
use fx_components::put_product;
use fx_text::Names;
use fx_vectors::{Matrix, Shape, Vector};
use std::alloc::Global;

/// Appends the rules of a design: those of the rows that are no unit vectors, as products of those that are.
pub(crate) fn put_rules(alloc: Global, out: &mut Bytes, matrix: &Matrix) -> Result<(), NoMemory>
    ensures { OnOk result (out.new ≡ out.old ++ rules_text matrix.now) }
{
    put(out, b"rules")?;
    put_some(alloc, out, matrix)?;
    put(out, b"\n")
}

/// Appends the rules, or that there is none.
fn put_some(alloc: Global, out: &mut Bytes, matrix: &Matrix) -> Result<(), NoMemory>
    ensures { OnOk result (out.new ≡ out.old ++ some_rules matrix.now) }
{
    if are_units(matrix) {
        return put(out, b" none");
    }
    let names = unit_names(alloc, matrix)?;
    let units = each_of(alloc, &names)?;
    put_each(out, units.as_slice(), matrix)
}

/// Whether all rows are unit vectors.
fn are_units(matrix: &Matrix) -> bool
    ensures { result ≡ list_all (is_unit matrix.now.shape.q matrix.now.shape.m) matrix.now.rows }
{
    let shape = matrix.shape();
    for k in 0..matrix.len() {
        if !is_unit(shape, matrix.row(k)) {
            return false;
        }
    }
    true
}

/// Whether a row is a unit vector.
fn is_unit(shape: Shape, row: u16) -> bool
    ensures { result ≡ is_unit shape.q shape.m row }
{
    (0..shape.m).any(|j| is_power(shape.q, j, u64::from(row)))
}

/// The names of the first rows that are the unit vectors.
fn unit_names(alloc: Global, matrix: &Matrix) -> Result<Names, NoMemory>
    ensures { IfOk result (λ names. names ≡ unit_names matrix.now) }
{
    let shape = matrix.shape();
    let mut names = Names::new(alloc);
    for j in 0..shape.m {
        let place = place_of(j, matrix);
        names.push(row_name(alloc, shape.s, place)?)?;
    }
    Ok(names)
}

/// The place of the first row that is the unit vector with its 1 at `j`, or the number of rows where none is.
fn place_of(j: u8, matrix: &Matrix) -> usize
    ensures place { result ≡ place_of (matrix.now.shape.q ^ j) matrix.now.rows }
    ensures within { result ≤ 63 }
{
    let shape = matrix.shape();
    for k in 0..matrix.len() {
        if is_power(shape.q, j, u64::from(matrix.row(k))) {
            return k;
        }
    }
    matrix.len()
}

/// The name of the row at `k`, counted from 0, of so many factors and then block factors.
fn row_name(alloc: Global, factors: u8, k: usize) -> Result<Bytes, NoMemory>
    requires { k ≤ 63 }
    ensures { IfOk result (λ name. name ≡ row_name factors k) }
{
    let mut name = Bytes::new(alloc);
    put_row_name(&mut name, factors, k)?;
    Ok(name)
}

/// Appends this name.
fn put_row_name(out: &mut Bytes, factors: u8, k: usize) -> Result<(), NoMemory>
    requires { k ≤ 63 }
    ensures { OnOk result (out.new ≡ out.old ++ row_name factors k) }
{
    let factors = usize::from(factors);
    if k < factors {
        put(out, b"X")?;
        put_number(out, (k + 1) as u128)?;
        return Ok(());
    }
    put(out, b"[")?;
    put_number(out, (k - factors + 1) as u128)?;
    put(out, b"]")
}

/// The names, each borrowed.
fn each_of<'a>(alloc: Global, names: &'a Names) -> Result<Vec<&'a Bytes>, NoMemory>
    ensures { IfOk result (λ each. map (λ n. n.now) each.items ≡ names.now) }
{
    let mut each = Vec::new(alloc);
    for i in 0..names.len() {
        if each.push(names.get(i)).is_err() {
            return Err(NoMemory);
        }
    }
    Ok(each)
}

/// Appends the rule of each row that is no unit vector.
fn put_each(out: &mut Bytes, units: &[&Bytes], matrix: &Matrix) -> Result<(), NoMemory>
    requires { length units.now ≡ matrix.now.shape.m }
    ensures { OnOk result (out.new
        ≡ out.old ++ rules_from (map (λ n. n.now) units.now) matrix.now.shape 0 matrix.now.rows) }
{
    let shape = matrix.shape();
    for k in 0..matrix.len() {
        put_rule(out, units, shape, k, matrix.row(k))?;
    }
    Ok(())
}

/// Appends the rule of the row at `k`, unless the row is a unit vector.
fn put_rule(
    out: &mut Bytes,
    units: &[&Bytes],
    shape: Shape,
    k: usize,
    row: u16,
) -> Result<(), NoMemory>
    requires shaped { IsShape shape }
    requires place { k ≤ 63 }
    requires names { length units.now ≡ shape.m }
    ensures { OnOk result (out.new ≡ out.old ++ rule_text (map (λ n. n.now) units.now) shape k row) }
{
    if is_unit(shape, row) {
        return Ok(());
    }
    put_product_of(out, units, shape, k, row)
}

/// Appends the rule of the row at `k`.
fn put_product_of(
    out: &mut Bytes,
    units: &[&Bytes],
    shape: Shape,
    k: usize,
    row: u16,
) -> Result<(), NoMemory>
    requires shaped { IsShape shape }
    requires place { k ≤ 63 }
    requires names { length units.now ≡ shape.m }
    ensures { OnOk result (out.new ≡ out.old ++ rule_of (map (λ n. n.now) units.now) shape k row) }
{
    let row = Vector::of_number(shape.field(), usize::from(shape.m), u128::from(row));
    put(out, b" ")?;
    put_row_name(out, shape.s, k)?;
    put(out, b"=")?;
    put_product(out, units, &row)
}

/// Whether q^h = n.
pub fn is_power(q: u8, h: u8, n: u64) -> bool
    ensures { result ≡ ((q ^ h) == n) }
{
    match u128::from(q).checked_pow(u32::from(h)) {
        Some(power) => power == u128::from(n),
        None => false,
    }
}
