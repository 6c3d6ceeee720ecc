ghost use Rattle.std.specs.Prelude.{◌≡◌, ◌<◌, ◌≤◌, All, IfOk, IfSome, length, replicate};
ghost use Rattle.fx_designs.specs.Vectors.{IsVector, zeros};
ghost use Rattle.fx_judge.specs.Regular.{row_differences};
ghost use Rattle.fx_judge.specs.Rules.{IsRuleOver, basic_among, plan_rules, regular_rules, rule_by};

use crate::basis::{column, copy_of, direction, exception, grown};
use crate::combinations::{Marks, are_even};
use crate::plan::Plan;
use crate::rule::{Rule, Rules};
use fx_base::{Items, NoMemory};
use fx_galois::Field;
use fx_vectors::Vector;
use std::alloc::Global;

/// The rules of a regular plan, one for each factor that is not basic, in order: `None` exactly where
/// the plan is not regular. A plan is regular where its distinct runs are a coset of a linear subspace
/// and each of them comes equally often.
pub fn rules_of(alloc: Global, plan: &Plan) -> Result<Option<Rules>, NoMemory>
    ensures rules { IfOk result (λ found. found ≡ regular_rules plan.now) }
    ensures each { IfOk result (λ found. IfSome found
        (All (IsRuleOver (length plan.now.names)))) }
{
    let Elimination {
        differences,
        basic,
        rules,
    } = eliminate(alloc, plan)?;
    if are_even(plan.field(), &differences, &basic) {
        Ok(Some(rules))
    } else {
        Ok(None)
    }
}

/// What is left of a plan after elimination, factor by factor.
#[derive(Drop)]
pub(crate) struct Elimination {
    /// The differences of the runs from the first.
    pub differences: Items<Vector>,
    /// Which factors are basic.
    pub basic: Marks,
    /// The rules of the others, in order, which hold whether or not the plan is regular.
    pub rules: Rules,
}

/// Finds the basic factors, and the rules of the others.
pub(crate) fn eliminate(alloc: Global, plan: &Plan) -> Result<Elimination, NoMemory>
    ensures rules { IfOk result (λ found. found.rules
        ≡ plan_rules plan.now.q (length plan.now.names) plan.now.rows) }
    ensures differences { IfOk result (λ found. found.differences
        ≡ row_differences plan.now.q plan.now.rows) }
    ensures basic { IfOk result (λ found. found.basic.items
        ≡ basic_among plan.now.q (length plan.now.names)
        (row_differences plan.now.q plan.now.rows) (length plan.now.names)) }
{
    let differences = differences(alloc, plan)?;
    let s = plan.names().len();
    let mut rows = zero_rows(alloc, s)?;
    let mut found = Items::new(alloc);
    let mut basic = Marks::new();
    for i in 0..s {
        let u = column(&rows, i);
        match exception(plan.field(), &differences, &u, i) {
            None => {
                found.push(rule_by(plan.field(), plan.row(0), i, u))?;
                basic.push(false);
            }
            Some(k) => {
                let e = direction(plan.field(), &rows, differences.get(k), i);
                rows = grown(alloc, plan.field(), &rows, &e, i)?;
                basic.push(true);
            }
        }
    }
    Ok(Elimination {
        differences,
        basic,
        rules: found,
    })
}

/// The differences of the runs from the first.
pub(crate) fn differences(alloc: Global, plan: &Plan) -> Result<Items<Vector>, NoMemory>
    ensures list { IfOk result (λ found. found ≡ row_differences plan.now.q plan.now.rows) }
    ensures each { IfOk result (All (λ d. IsVector plan.now.q (length plan.now.names) d)) }
{
    let field = plan.field();
    let minus_one = field.neg(1);
    let mut found = Items::new(alloc);
    for i in 0..plan.len() {
        let mut d = copy_of(plan.row(i));
        d.add_scaled(field, plan.row(0), minus_one);
        found.push(d)?;
    }
    Ok(found)
}

/// `s` vectors of `s` zeros.
fn zero_rows(alloc: Global, s: usize) -> Result<Items<Vector>, NoMemory>
    requires { s ≤ 40 }
    ensures { IfOk result (λ rows. rows ≡ replicate s (zeros s)) }
{
    let mut rows = Items::new(alloc);
    for _i in 0..s {
        rows.push(Vector::zero(s))?;
    }
    Ok(rows)
}

/// The rule of factor `i`, counted from 0, by this combination.
fn rule_by(field: Field, first: &Vector, i: usize, u: Vector) -> Rule
    requires few { i < 40 }
    requires vector { IsVector field (length u) u }
    requires same { IsVector field (length u) first.now }
    requires there { i < length u }
    ensures { result ≡ rule_by field first.now i u }
{
    let sum = u.dot(field, first);
    let constant = field.add(first.code(i), field.mul(field.neg(1), sum));
    Rule {
        factor: i as u8 + 1,
        combination: u,
        constant,
    }
}
