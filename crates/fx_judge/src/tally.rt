ghost use Rattle.std.specs.Prelude.{◌≡◌, ◌+◌, ◌*◌, ◌<◌, ◌==◌, ◌&&◌, List, ℕ, length, map, All};
ghost use Rattle.fx_designs.specs.Vectors.{IsVector, dot};
ghost use Rattle.fx_judge.specs.Plans.{IsPlan};
ghost use Rattle.fx_judge.specs.Tallies.{AreValueCounts};

use crate::plan::Plan;
use fx_vectors::Vector;

/// On how many runs x u.x is each value. No field has more than nine.
pub(crate) fn counts_of(u: &Vector, plan: &Plan) -> [u32; 9]
    requires { IsVector plan.now.q (length plan.now.names) u.now }
    ensures { AreValueCounts 9 (map (λ x. dot plan.now.q u.now x) plan.now.rows) result }
{
    let field = plan.field();
    let mut counts = [0u32; 9];
    for i in 0..plan.len() {
        counts[usize::from(u.dot(field, plan.row(i)))] += 1;
    }
    counts
}

/// On how many runs x u.x and v.x are each two values: a and b are counted at 9 a + b.
pub(crate) fn pairs_of(u: &Vector, v: &Vector, plan: &Plan) -> [u32; 81]
    requires first { IsVector plan.now.q (length plan.now.names) u.now }
    requires second { IsVector plan.now.q (length plan.now.names) v.now }
    ensures { AreValueCounts 81
        (map (λ x. 9 * dot plan.now.q u.now x + dot plan.now.q v.now x) plan.now.rows) result }
{
    let field = plan.field();
    let mut pairs = [0u32; 81];
    for i in 0..plan.len() {
        let a = usize::from(u.dot(field, plan.row(i)));
        let b = usize::from(v.dot(field, plan.row(i)));
        pairs[9 * a + b] += 1;
    }
    pairs
}
