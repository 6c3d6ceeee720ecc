ghost use Rattle.std.specs.Prelude.{◌≡◌, Contains, IfOk};
ghost use Rattle.fx_plan.specs.Products.{CanBePlanned, IsHanded, plan_of, rows_of_rep};
ghost use Rattle.fx_plan.specs.Steps.{IsDesignOf};
ghost use Rattle.fx_runs.specs.Runs.{design_of};

use crate::assembled::{Plan, repeats};
use crate::layout::{Arranged, Layout};
use crate::product::product;
use fx_base::NoMemory;
use fx_runs::{Runs, list_runs};
use fx_statements::{Names, OutputSpec, Rep, Step};
use fx_vectors::Matrix;
use std::alloc::Global;

/// The plan that an OUTPUT statement of a step asks for, of a design of the step. `inner` is
/// the plan that POINTREP names, if it names one, and `outer` the one that DESIGNREP names. `seed` is
/// the program's, which is used where RANDOMIZE has none of its own.
///
/// # Errors
///
/// `NoMemory`.
pub fn plan(
    alloc: Global,
    step: &Step,
    matrix: &Matrix,
    output: &OutputSpec,
    seed: u64,
    inner: Option<Plan>,
    outer: Option<Plan>,
) -> Result<Plan, NoMemory>
    requires design { IsDesignOf step.now matrix.now }
    requires asked { Contains step.now.outputs output.now }
    requires inner { IsHanded output.now.pointrep inner }
    requires outer { IsHanded output.now.designrep outer }
    ensures { IfOk result (λ plan. plan
        ≡ plan_of step.now.factors (design_of matrix.now) output.now seed
        (rows_of_rep output.now.pointrep inner) (rows_of_rep output.now.designrep outer)) }
{
    let runs = list_runs(alloc, matrix)?;
    let inside = handed(alloc, output.pointrep, inner);
    let outside = handed(alloc, output.designrep, outer);
    plan_of(alloc, &step.factors, &runs, output, seed, inside, outside)
}

/// The plan that is named, or else a plain number of rows.
fn handed(alloc: Global, rep: Rep, named: Option<Plan>) -> Plan
    requires { IsHanded rep named }
    ensures { result ≡ rows_of_rep rep named }
{
    match named {
        Some(plan) => plan,
        None => match rep {
            Rep::Times(n) => repeats(alloc, n),
            Rep::Plan(_) => repeats(alloc, 0),
        },
    }
}

/// The plan of some runs, of any number: each of them is repeated by the rows of `inner`, and the
/// whole list of them by those of `outer`. What the output says of repetitions is not read.
///
/// # Errors
///
/// `NoMemory`, also for more than 4,294,967,295 rows.
pub fn plan_of(
    alloc: Global,
    factors: &Names,
    runs: &Runs,
    output: &OutputSpec,
    seed: u64,
    inner: Plan,
    outer: Plan,
) -> Result<Plan, NoMemory>
    requires { CanBePlanned factors.now runs.now output.now }
    ensures { IfOk result (λ plan. plan
        ≡ plan_of factors.now runs.now output.now seed inner outer) }
{
    let layout = Layout {
        alloc,
        factors,
        runs,
        output,
        inner: &inner,
        outer: &outer,
    };
    let Arranged { runs: table, order } = layout.arranged(seed)?;
    product(alloc, order, table, inner, outer)
}
