ghost use Rattle.std.specs.Prelude.{◌≡◌, ◌++◌, [], ◌==◌, ◌+◌, ◌<◌, ◌≤◌, ◌^◌, map, length, slice_index_or, OnErr, OnOk, IfOk};
ghost use Rattle.fx_designs.specs.Galois.{digits};
ghost use Rattle.fx_vectors.specs.Shape.{IsShape, dimensions_of};
ghost use Rattle.fx_components.specs.Lines.{or_none};
ghost use Rattle.fx_alias.specs.Rules.{block_name, block_names, introduction, left_side, rule_lines, rule_of, rules_section, run_factor_line, subjects};

use fx_base::{Bytes, NoMemory, put, put_number};
use fx_components::put_product;
use fx_statements::Step;
use fx_text::Names;
use fx_vectors::{Matrix, Shape, Vector};
use std::alloc::Global;

/// Appends the rules of a design: for each factor that introduces no run index, its generator in
/// terms of those that do (Wu and Hamada). The rules of the block factors follow; a block factor that
/// introduces a run index is that run factor.
///
/// The matrix has all rows of its shape, and a rule for each factor of the step.
///
/// # Errors
///
/// `NoMemory`; `out` is then as before.
pub fn rules_listing(
    alloc: Global,
    step: &Step,
    matrix: &Matrix,
    out: &mut Bytes,
) -> Result<(), NoMemory>
    requires complete { length matrix.now.rows ≡ matrix.now.shape.s + matrix.now.shape.t }
    requires factors { matrix.now.shape.s ≡ length step.now.factors }
    ensures ok { OnOk result
        (out.new
        ≡ out.old
        ++ rules_section (dimensions_of matrix.now.shape) step.now.factors matrix.now.rows) }
    ensures err { OnErr result (out.new ≡ out.old) }
{
    let mut lines = Bytes::new(alloc);
    put_section(alloc, step, matrix, &mut lines)?;
    put(out, lines.as_slice())
}

/// Appends the section.
fn put_section(alloc: Global, step: &Step, matrix: &Matrix, out: &mut Bytes) -> Result<(), NoMemory>
    requires complete { length matrix.now.rows ≡ matrix.now.shape.s + matrix.now.shape.t }
    requires factors { matrix.now.shape.s ≡ length step.now.factors }
    ensures { OnOk result
        (out.new
        ≡ out.old
        ++ rules_section (dimensions_of matrix.now.shape) step.now.factors matrix.now.rows) }
{
    let blocks = block_names(alloc, matrix.shape().t)?;
    put(out, b"rules\n")?;
    put_rules(alloc, out, &step.factors, &blocks, matrix)
}

/// The names of `t` block factors.
fn block_names(alloc: Global, t: u8) -> Result<Names, NoMemory>
    ensures { IfOk result (λ names. names ≡ block_names t) }
{
    let mut names = Names::new(alloc);
    for j in 0..t {
        names.push(block_name(alloc, j + 1)?)?;
    }
    Ok(names)
}

/// The name of block factor `j`, counted from 1.
fn block_name(alloc: Global, j: u8) -> Result<Bytes, NoMemory>
    ensures { IfOk result (λ name. name ≡ block_name j) }
{
    let mut name = Bytes::new(alloc);
    put(&mut name, b"[")?;
    put_number(&mut name, u128::from(j))?;
    put(&mut name, b"]")?;
    Ok(name)
}

/// Appends the rules of a design whose factors and block factors have these names, or that there are
/// none.
fn put_rules(
    alloc: Global,
    out: &mut Bytes,
    factors: &Names,
    blocks: &Names,
    matrix: &Matrix,
) -> Result<(), NoMemory>
    requires { length matrix.now.rows ≡ length factors.now + length blocks.now }
    ensures { OnOk result
        (out.new
        ≡ out.old
        ++ or_none
        (rule_lines matrix.now.shape.q matrix.now.shape.m [] (subjects factors.now blocks.now)
        matrix.now.rows)) }
{
    let before = out.len();
    put_rule_lines(alloc, out, factors, blocks, matrix)?;
    if out.len() == before {
        return put(out, b"  none\n");
    }
    Ok(())
}

/// Appends the rules of a design whose factors and block factors have these names.
fn put_rule_lines(
    alloc: Global,
    out: &mut Bytes,
    factors: &Names,
    blocks: &Names,
    matrix: &Matrix,
) -> Result<(), NoMemory>
    requires { length matrix.now.rows ≡ length factors.now + length blocks.now }
    ensures { OnOk result
        (out.new
        ≡ out.old ++ rule_lines matrix.now.shape.q matrix.now.shape.m []
        (subjects factors.now blocks.now) matrix.now.rows) }
{
    let shape = matrix.shape();
    let mut introduced: Vec<&Bytes> = Vec::new(alloc);
    for k in 0..matrix.len() {
        let name = name_of(factors, blocks, k);
        let row = matrix.row(k);
        if is_next_unit(shape, introduced.len(), row) {
            put_introduction(out, name, factors.len() <= k, introduced.len() + 1)?;
            if introduced.push(name).is_err() {
                return Err(NoMemory);
            }
            continue;
        }
        put_rule(out, introduced.as_slice(), name, shape, row)?;
    }
    Ok(())
}

/// The name of the factor or block factor of row `k`, counted from 0.
fn name_of<'a>(factors: &'a Names, blocks: &'a Names, k: usize) -> &'a Bytes
    requires { k < length factors.now + length blocks.now }
    ensures { result.now ≡ slice_index_or (factors.now ++ blocks.now) k [] }
{
    if k < factors.len() {
        factors.get(k)
    } else {
        blocks.get(k - factors.len())
    }
}

/// Whether the row is the next unit vector, where `count` run indexes are introduced.
fn is_next_unit(shape: Shape, count: usize, row: u16) -> bool
    requires shaped { IsShape shape }
    requires count { count ≤ shape.m }
    ensures { result ≡ (row == shape.q ^ count) }
{
    u32::from(row) == u32::from(shape.q).pow(count as u32)
}

/// Appends the rule of what introduces run index `i`, where it is a block factor.
fn put_introduction(out: &mut Bytes, name: &Bytes, is_block: bool, i: usize) -> Result<(), NoMemory>
    ensures { OnOk result
        (out.new ≡ out.old ++ introduction (record { name = name.now; is_block = is_block }) i) }
{
    if is_block {
        put_run_factor(out, name, i)
    } else {
        Ok(())
    }
}

/// Appends that the block factor of this name is run factor `i`.
fn put_run_factor(out: &mut Bytes, name: &Bytes, i: usize) -> Result<(), NoMemory>
    ensures { OnOk result (out.new ≡ out.old ++ run_factor_line name.now i) }
{
    put_left_side(out, name)?;
    put(out, b"run factor ")?;
    put_number(out, i as u128)?;
    put(out, b"\n")
}

/// Appends the rule of this name and row, over the names that introduced the run indexes.
fn put_rule(
    out: &mut Bytes,
    introduced: &[&Bytes],
    name: &Bytes,
    shape: Shape,
    row: u16,
) -> Result<(), NoMemory>
    requires shaped { IsShape shape }
    requires below { row < shape.q ^ shape.m }
    requires few { length introduced.now ≤ shape.m }
    ensures { OnOk result
        (out.new
        ≡ out.old ++ rule_of (map (λ n. n.now) introduced.now) name.now
        (digits shape.q shape.m row)) }
{
    let row = Vector::of_number(shape.field(), usize::from(shape.m), u128::from(row));
    put_left_side(out, name)?;
    put_product(out, introduced, &row)?;
    put(out, b"\n")
}

/// Appends the left side of a rule.
fn put_left_side(out: &mut Bytes, name: &Bytes) -> Result<(), NoMemory>
    ensures { OnOk result (out.new ≡ out.old ++ left_side name.now) }
{
    put(out, b"  ")?;
    put(out, name.as_slice())?;
    put(out, b" = ")
}
