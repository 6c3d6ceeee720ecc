ghost use Rattle.std.specs.Prelude.{◌≡◌, ◌≢◌, ◌≤◌, ◌<◌, ◌+◌, ◌-◌, ◌++◌, [], ◌∷◌, All, IfSome, OnErr, OnOk, IfOk, count_by, drop, length, map, slice_index_or};
ghost use Rattle.std.specs.List.{flat_map};
ghost use Rattle.fx_designs.specs.Vectors.{IsVector};
ghost use Rattle.fx_components.specs.Lines.{or_none};
ghost use Rattle.fx_judge.specs.Listing.{
  constant_text,
  count_lines,
  plan_size_line,
  joined_line,
  kinship_lines,
  kinships,
  number_line,
  pair_line,
  pair_lines,
  plan_listing,
  plan_rule_line,
  regular_lines,
  runs_line,
};
ghost use Rattle.fx_judge.specs.Rules.{IsRuleOver, regular_rules};

use crate::kinship::{Kinship, count_aliased, count_orthogonal, count_partial};
use crate::pairs::{Pairs, judge_pairs};
use crate::plan::Plan;
use crate::regular::rules_of;
use crate::rule::{Rule, Rules};
use fx_base::{Bytes, NoMemory, put, put_number};
use fx_components::put_product;
use std::alloc::Global;

/// Appends the listing of a plan: how large it is; whether it is regular, and its rules where it is;
/// how many pairs of its components of one and two factors are aliased, orthogonal and partially
/// aliased, counted over its runs; and a line for each pair that is not orthogonal.
///
/// # Errors
///
/// `NoMemory`; `out` is then as before.
pub fn judge_listing(alloc: Global, plan: &Plan, out: &mut Bytes) -> Result<(), NoMemory>
    ensures ok { OnOk result (out.new ≡ out.old ++ plan_listing plan.now) }
    ensures err { OnErr result (out.new ≡ out.old) }
{
    let mut lines = Bytes::new(alloc);
    put_listing(alloc, plan, &mut lines)?;
    put(out, lines.as_slice())
}

/// Appends the listing.
fn put_listing(alloc: Global, plan: &Plan, out: &mut Bytes) -> Result<(), NoMemory>
    ensures { OnOk result (out.new ≡ out.old ++ plan_listing plan.now) }
{
    let names = lent(alloc, plan.names())?;
    let pairs = judge_pairs(alloc, plan, names.as_slice())?;
    put_runs(plan.len(), out)?;
    put_factors(plan.names().len(), plan.field().q(), out)?;
    put_regular(alloc, plan, names.as_slice(), out)?;
    put_kinships(pairs.kinds.as_slice(), out)?;
    put(out, b"not orthogonal\n")?;
    put_or_none(pairs.lines.as_slice(), out)
}

/// The names, lent, as products take them.
fn lent<'a>(alloc: Global, names: &'a [Bytes]) -> Result<Vec<&'a Bytes>, NoMemory>
    ensures { IfOk result (λ lent. map (λ n. n.now) lent.items ≡ names.now) }
{
    let mut lent = Vec::new(alloc);
    for name in names {
        if lent.push(name).is_err() {
            return Err(NoMemory);
        }
    }
    Ok(lent)
}

/// Appends how many runs a plan has.
fn put_runs(runs: usize, out: &mut Bytes) -> Result<(), NoMemory>
    ensures { OnOk result (out.new ≡ out.old ++ runs_line runs) }
{
    put(out, b"plan ")?;
    put_number(out, runs as u128)?;
    put(out, b" rows\n")
}

/// Appends how many factors and levels it has.
fn put_factors(factors: usize, levels: u8, out: &mut Bytes) -> Result<(), NoMemory>
    ensures { OnOk result (out.new ≡ out.old ++ plan_size_line factors levels) }
{
    put(out, b"factors ")?;
    put_number(out, factors as u128)?;
    put(out, b" levels ")?;
    put_number(out, u128::from(levels))?;
    put(out, b"\n")
}

/// Appends whether a plan is regular, and its rules where it is.
fn put_regular(
    alloc: Global,
    plan: &Plan,
    names: &[&Bytes],
    out: &mut Bytes,
) -> Result<(), NoMemory>
    requires { map (λ n. n.now) names.now ≡ plan.now.names }
    ensures { OnOk result (out.new
        ≡ out.old ++ regular_lines plan.now.names (regular_rules plan.now)) }
{
    let Some(rules) = rules_of(alloc, plan)? else {
        return put(out, b"not regular\n");
    };
    let mut lines = Bytes::new(alloc);
    put_rules(names, &rules, &mut lines)?;
    put(out, b"regular\nrules\n")?;
    put_or_none(lines.as_slice(), out)
}

/// Appends the lines of rules over the named factors.
fn put_rules(names: &[&Bytes], rules: &Rules, out: &mut Bytes) -> Result<(), NoMemory>
    requires { All (IsRuleOver (length names.now)) rules.now }
    ensures { OnOk result (out.new
        ≡ out.old ++ flat_map (plan_rule_line (map (λ n. n.now) names.now)) rules.now) }
{
    for rule in rules.as_slice() {
        put_rule(names, rule, out)?;
    }
    Ok(())
}

/// Appends the line of a rule.
fn put_rule(names: &[&Bytes], rule: &Rule, out: &mut Bytes) -> Result<(), NoMemory>
    requires { IsRuleOver (length names.now) rule.now }
    ensures { OnOk result (out.new
        ≡ out.old ++ plan_rule_line (map (λ n. n.now) names.now) rule.now) }
{
    put(out, b"  ")?;
    put(out, names[usize::from(rule.factor) - 1].as_slice())?;
    put(out, b" = ")?;
    put_product(out, names, &rule.combination)?;
    put_constant(rule.constant, out)?;
    put(out, b"\n")
}

/// Appends what is added to a product.
fn put_constant(c: u8, out: &mut Bytes) -> Result<(), NoMemory>
    ensures { OnOk result (out.new ≡ out.old ++ constant_text c) }
{
    if c == 0 {
        return Ok(());
    }
    put(out, b" + ")?;
    put_number(out, u128::from(c))
}

/// Appends how many pairs there are, and how many of each kind.
fn put_kinships(kinds: &[Kinship], out: &mut Bytes) -> Result<(), NoMemory>
    ensures { OnOk result (out.new ≡ out.old ++ kinship_lines kinds.now) }
{
    let aliased = count_aliased(kinds);
    let orthogonal = count_orthogonal(kinds);
    let partial = count_partial(kinds);
    put_counts(kinds.len(), aliased, orthogonal, partial, out)
}

fn put_counts(
    pairs: usize,
    aliased: usize,
    orthogonal: usize,
    partial: usize,
    out: &mut Bytes,
) -> Result<(), NoMemory>
    ensures { OnOk result (out.new ≡ out.old ++ count_lines pairs aliased orthogonal partial) }
{
    put_number_line(b"pairs ", pairs, out)?;
    put_number_line(b"aliased ", aliased, out)?;
    put_number_line(b"orthogonal ", orthogonal, out)?;
    put_number_line(b"partial ", partial, out)
}

fn put_number_line(word: &[u8], n: usize, out: &mut Bytes) -> Result<(), NoMemory>
    ensures { OnOk result (out.new ≡ out.old ++ number_line word.now n) }
{
    put(out, word)?;
    put_number(out, n as u128)?;
    put(out, b"\n")
}

/// Appends lines, or a line that says that there are none.
fn put_or_none(lines: &[u8], out: &mut Bytes) -> Result<(), NoMemory>
    ensures { OnOk result (out.new ≡ out.old ++ or_none lines.now) }
{
    if lines.is_empty() {
        return put(out, b"  none\n");
    }
    put(out, lines)
}
