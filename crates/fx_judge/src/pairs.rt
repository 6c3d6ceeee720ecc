ghost use Rattle.std.specs.Prelude.{◌≡◌, ◌≢◌, ◌≤◌, ◌<◌, ◌+◌, ◌*◌, ◌++◌, [], ◌∷◌, All, IfOk, OnOk, drop, length, map, slice_index_or};
ghost use Rattle.std.specs.List.{flat_map};
ghost use Rattle.fx_designs.specs.Vectors.{IsVector, dot};
ghost use Rattle.fx_judge.specs.Columns.{HasPairs, IsColumn, paired};
ghost use Rattle.fx_judge.specs.Listing.{joined_line, kinship_in, kinships, line_in, pair_line, pair_lines, pairs_in};
ghost use Rattle.fx_judge.specs.Plans.{plan_components};
ghost use Rattle.fx_judge.specs.Tallies.{AreValueCounts};

use crate::basis::copy_of;
use crate::kinship::{Kinship, kinship_by};
use crate::plan::Plan;
use crate::tally::counts_of;
use fx_base::{Bytes, Items, NoMemory, put};
use fx_components::{list_components, put_product};
use fx_vectors::Vector;
use std::alloc::Global;

/// What the runs of a plan show of the pairs of its listed components, in order.
#[derive(Drop)]
pub(crate) struct Pairs {
    /// The kinship of each pair.
    pub kinds: Items<Kinship>,
    /// The lines of the pairs that are not orthogonal.
    pub lines: Bytes,
}

/// What the runs show of one component.
#[derive(Drop)]
struct Column {
    component: Vector,
    /// Its value on each run.
    values: Items<u8>,
    /// How often each value comes. No field has more than nine.
    counts: [u32; 9],
}

/// The pairs of the listed components, whose products are over the named factors.
pub(crate) fn judge_pairs(alloc: Global, plan: &Plan, names: &[&Bytes]) -> Result<Pairs, NoMemory>
    requires { map (λ n. n.now) names.now ≡ plan.now.names }
    ensures kinds { IfOk result (λ found. found.kinds ≡ kinships plan.now) }
    ensures lines { IfOk result (λ found. found.lines ≡ pair_lines plan.now) }
{
    let columns = columns_of(alloc, plan)?;
    let mut pairs = Pairs {
        kinds: Items::new(alloc),
        lines: Bytes::new(alloc),
    };
    for i in 0..columns.len() {
        let later = &columns.as_slice()[i + 1..];
        put_pairs(plan, names, columns.get(i), later, &mut pairs)?;
    }
    Ok(pairs)
}

/// What the runs show of each listed component.
fn columns_of(alloc: Global, plan: &Plan) -> Result<Items<Column>, NoMemory>
    ensures columns { IfOk result (All (IsColumn plan.now)) }
    ensures components { IfOk result (λ found. map (λ c. c.component) found
        ≡ plan_components plan.now) }
{
    let s = plan.names().len() as u8;
    let components = list_components(alloc, plan.field().q(), s, s.min(2))?;
    let mut columns = Items::new(alloc);
    for i in 0..components.len() {
        columns.push(column_of(alloc, plan, components.get(i))?)?;
    }
    Ok(columns)
}

/// What the runs show of one component.
fn column_of(alloc: Global, plan: &Plan, u: &Vector) -> Result<Column, NoMemory>
    requires { IsVector plan.now.q (length plan.now.names) u.now }
    ensures column { IfOk result (IsColumn plan.now) }
    ensures component { IfOk result (λ found. found.component ≡ u.now) }
{
    Ok(Column {
        component: copy_of(u),
        values: values_of(alloc, plan, u)?,
        counts: counts_of(u, plan),
    })
}

/// The value of a component on each run.
fn values_of(alloc: Global, plan: &Plan, u: &Vector) -> Result<Items<u8>, NoMemory>
    requires { IsVector plan.now.q (length plan.now.names) u.now }
    ensures { IfOk result (λ values. values ≡ map (dot plan.now.q u.now) plan.now.rows) }
{
    let field = plan.field();
    let mut values = Items::new(alloc);
    for i in 0..plan.len() {
        values.push(u.dot(field, plan.row(i)))?;
    }
    Ok(values)
}

/// Adds the pairs of a component and each of the later ones.
fn put_pairs(
    plan: &Plan,
    names: &[&Bytes],
    u: &Column,
    later: &[Column],
    pairs: &mut Pairs,
) -> Result<(), NoMemory>
    requires names { map (λ n. n.now) names.now ≡ plan.now.names }
    requires first { IsColumn plan.now u.now }
    requires second { All (IsColumn plan.now) later.now }
    ensures { OnOk result
        (HasPairs plan.now (paired u.now later.now) pairs.old pairs.new) }
{
    for v in later {
        put_pair(plan, names, u, v, pairs)?;
    }
    Ok(())
}

/// Adds a pair.
fn put_pair(
    plan: &Plan,
    names: &[&Bytes],
    u: &Column,
    v: &Column,
    pairs: &mut Pairs,
) -> Result<(), NoMemory>
    requires names { map (λ n. n.now) names.now ≡ plan.now.names }
    requires first { IsColumn plan.now u.now }
    requires second { IsColumn plan.now v.now }
    ensures { OnOk result
        (HasPairs plan.now ((u.now.component, v.now.component) ∷ []) pairs.old pairs.new) }
{
    let kind = kinship_between(plan, u, v);
    put_line(names, kind, &u.component, &v.component, &mut pairs.lines)?;
    pairs.kinds.push(kind)
}

/// What the runs show of two components.
fn kinship_between(plan: &Plan, u: &Column, v: &Column) -> Kinship
    requires first { IsColumn plan.now u.now }
    requires second { IsColumn plan.now v.now }
    ensures { result ≡ kinship_in plan.now (u.now.component, v.now.component) }
{
    let pairs = tally_pairs(plan, u, v);
    kinship_by(
        plan.field(),
        plan.len() as u32,
        &u.counts,
        &v.counts,
        &pairs,
    )
}

/// On how many runs the components have each two values: a and b are counted at 9 a + b.
fn tally_pairs(plan: &Plan, u: &Column, v: &Column) -> [u32; 81]
    requires first { IsColumn plan.now u.now }
    requires second { IsColumn plan.now v.now }
    ensures { AreValueCounts 81 (map (λ x. 9 * dot plan.now.q u.now.component x
        + dot plan.now.q v.now.component x) plan.now.rows) result }
{
    let mut pairs = [0u32; 81];
    let (us, vs) = (u.values.as_slice(), v.values.as_slice());
    for i in 0..plan.len() {
        pairs[9 * usize::from(us[i]) + usize::from(vs[i])] += 1;
    }
    pairs
}

/// Appends the line of two components of this kinship; orthogonal ones have none.
fn put_line(
    names: &[&Bytes],
    kind: Kinship,
    u: &Vector,
    v: &Vector,
    out: &mut Bytes,
) -> Result<(), NoMemory>
    requires first { length names.now ≤ length u.now }
    requires second { length names.now ≤ length v.now }
    ensures { OnOk result
        (out.new ≡ out.old ++ pair_line (map (λ n. n.now) names.now) kind u.now v.now) }
{
    match kind {
        Kinship::Aliased => put_joined(names, b" = ", u, v, out),
        Kinship::Orthogonal => Ok(()),
        Kinship::Partial => put_joined(names, b" ~ ", u, v, out),
    }
}

/// Appends the line of two components, with this between them.
fn put_joined(
    names: &[&Bytes],
    between: &[u8],
    u: &Vector,
    v: &Vector,
    out: &mut Bytes,
) -> Result<(), NoMemory>
    requires first { length names.now ≤ length u.now }
    requires second { length names.now ≤ length v.now }
    ensures { OnOk result
        (out.new ≡ out.old ++ joined_line (map (λ n. n.now) names.now) between.now u.now v.now) }
{
    put(out, b"  ")?;
    put_product(out, names, u)?;
    put(out, between)?;
    put_product(out, names, v)?;
    put(out, b"\n")
}
