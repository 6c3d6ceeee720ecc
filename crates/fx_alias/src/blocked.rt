ghost use Rattle.std.specs.Prelude.{◌≡◌, ◌≤◌, ◌<◌, ◌+◌, ◌^◌, take, [], ◌++◌, All, OnErr, OnOk, if◌then◌else◌, filter, length, map};
ghost use Rattle.std.specs.List.{flat_map};
ghost use Rattle.fx_designs.specs.Galois.{number};
ghost use Rattle.fx_designs.specs.Vectors.{IsVector, combination, vectors_of};
ghost use Rattle.fx_runs.specs.Runs.{design_of};
ghost use Rattle.fx_vectors.specs.Question.{requirement_of};
ghost use Rattle.fx_alias.specs.Aliasing.{listed_components};
ghost use Rattle.fx_alias.specs.BlockSpans.{IsBlockSpan};
ghost use Rattle.fx_alias.specs.Blocked.{blocked_section, component_line, is_blocked};
ghost use Rattle.fx_components.specs.Lines.{or_none};

use crate::block_span::block_span;
use crate::class::{class_number, sum_of_rules};
use crate::lines::lent;
use crate::listed::listed_components;
use fx_base::{Bytes, Items, NoMemory, put};
use fx_components::put_product;
use fx_points::PointSet;
use fx_statements::Step;
use fx_vectors::{Matrix, Vector};
use std::alloc::Global;

/// Appends the section with the components that are confounded with blocks: constant inside each
/// block, and not over all runs. The components are those of the section on aliases.
///
/// The matrix has all rows of its shape, a rule for each factor of the step, and at most 1,024
/// blocks. The time that is taken grows with the number of components, whatever the number of runs.
///
/// # Errors
///
/// `NoMemory`; `out` is then as before.
pub fn blocked_listing(
    alloc: Global,
    step: &Step,
    matrix: &Matrix,
    out: &mut Bytes,
) -> Result<(), NoMemory>
    requires complete { length matrix.now.rows ≡ matrix.now.shape.s + matrix.now.shape.t }
    requires factors { matrix.now.shape.s ≡ length step.now.factors }
    requires few { matrix.now.shape.q ^ matrix.now.shape.t ≤ 1024 }
    ensures ok { OnOk result
        (out.new
        ≡ out.old ++ blocked_section step.now.factors (design_of matrix.now)
        (listed_components matrix.now.shape.q matrix.now.shape.s (requirement_of step.now.demands))) }
    ensures err { OnErr result (out.new ≡ out.old) }
{
    let mut lines = Bytes::new(alloc);
    put_section(alloc, step, matrix, &mut lines)?;
    put(out, lines.as_slice())
}

/// Appends the section.
fn put_section(alloc: Global, step: &Step, matrix: &Matrix, out: &mut Bytes) -> Result<(), NoMemory>
    requires complete { length matrix.now.rows ≡ matrix.now.shape.s + matrix.now.shape.t }
    requires factors { matrix.now.shape.s ≡ length step.now.factors }
    requires few { matrix.now.shape.q ^ matrix.now.shape.t ≤ 1024 }
    ensures { OnOk result
        (out.new
        ≡ out.old ++ blocked_section step.now.factors (design_of matrix.now)
        (listed_components matrix.now.shape.q matrix.now.shape.s (requirement_of step.now.demands))) }
{
    let components = listed_components(alloc, &step.demands, matrix.shape())?;
    let span = block_span(matrix);
    let names = lent(alloc, &step.factors)?;
    put(out, b"blocked\n")?;
    put_blocked(out, names.as_slice(), matrix, &span, &components)
}

/// Appends the lines of the components that are confounded, or that there is none.
fn put_blocked(
    out: &mut Bytes,
    names: &[&Bytes],
    matrix: &Matrix,
    span: &PointSet,
    components: &Items<Vector>,
) -> Result<(), NoMemory>
    requires span { IsBlockSpan matrix.now span.now }
    requires each { All (λ u. IsVector matrix.now.shape.q matrix.now.shape.s u) components.now }
    requires complete { length matrix.now.rows ≡ matrix.now.shape.s + matrix.now.shape.t }
    requires long { length names.now ≤ matrix.now.shape.s }
    ensures { OnOk result
        (out.new
        ≡ out.old ++ or_none (flat_map (component_line (map (λ n. n.now) names.now))
        (filter (is_blocked (design_of matrix.now)) components.now))) }
{
    let before = out.len();
    put_lines(out, names, matrix, span, components)?;
    if out.len() == before {
        return put(out, b"  none\n");
    }
    Ok(())
}

/// Appends the lines of the components that are confounded.
fn put_lines(
    out: &mut Bytes,
    names: &[&Bytes],
    matrix: &Matrix,
    span: &PointSet,
    components: &Items<Vector>,
) -> Result<(), NoMemory>
    requires span { IsBlockSpan matrix.now span.now }
    requires each { All (λ u. IsVector matrix.now.shape.q matrix.now.shape.s u) components.now }
    requires complete { length matrix.now.rows ≡ matrix.now.shape.s + matrix.now.shape.t }
    requires long { length names.now ≤ matrix.now.shape.s }
    ensures { OnOk result
        (out.new
        ≡ out.old ++ flat_map (component_line (map (λ n. n.now) names.now))
        (filter (is_blocked (design_of matrix.now)) components.now)) }
{
    for u in components.as_slice() {
        put_where_blocked(out, names, matrix, span, u)?;
    }
    Ok(())
}

/// Appends the line of the component, where it is confounded.
fn put_where_blocked(
    out: &mut Bytes,
    names: &[&Bytes],
    matrix: &Matrix,
    span: &PointSet,
    u: &Vector,
) -> Result<(), NoMemory>
    requires span { IsBlockSpan matrix.now span.now }
    requires vector { IsVector matrix.now.shape.q matrix.now.shape.s u.now }
    requires complete { length matrix.now.rows ≡ matrix.now.shape.s + matrix.now.shape.t }
    requires long { length names.now ≤ matrix.now.shape.s }
    ensures { OnOk result
        (out.new
        ≡ out.old ++ (if is_blocked (design_of matrix.now) u.now
        then component_line (map (λ n. n.now) names.now) u.now else [])) }
{
    if !is_blocked(matrix, span, u) {
        return Ok(());
    }
    put(out, b"  ")?;
    put_product(out, names, u)?;
    put(out, b"\n")
}

/// Whether the component is constant inside each block, and not over all runs.
pub(crate) fn is_blocked(matrix: &Matrix, span: &PointSet, u: &Vector) -> bool
    requires span { IsBlockSpan matrix.now span.now }
    requires vector { IsVector matrix.now.shape.q matrix.now.shape.s u.now }
    requires complete { length matrix.now.rows ≡ matrix.now.shape.s + matrix.now.shape.t }
    ensures { result ≡ is_blocked (design_of matrix.now) u.now }
{
    class_number(matrix, u) != 0 && span.contains(factor_sum(matrix, u))
}

/// The number of the sum of the factor rules, each times the code of `u` at its place.
pub(crate) fn factor_sum(matrix: &Matrix, u: &Vector) -> u16
    requires vector { IsVector matrix.now.shape.q matrix.now.shape.s u.now }
    requires complete { length matrix.now.rows ≡ matrix.now.shape.s + matrix.now.shape.t }
    ensures sum { let q = matrix.now.shape.q in let m = matrix.now.shape.m in
        result ≡ number q (combination q m u.now (vectors_of q m matrix.now.rows)) }
    ensures below { result < 1024 }
{
    sum_of_rules(matrix, 0, u).number(matrix.shape().field()) as u16
}
