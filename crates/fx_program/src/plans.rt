ghost use Rattle.std.specs.Prelude.{◌≡◌, ◌<◌, ◌≤◌, Contains, length, take, IfOk, slice_index_or, Some, None};
ghost use Rattle.fx_program.specs.Ended.{IsEnded};
ghost use Rattle.fx_statements.specs.Steps.{meaning_of};
ghost use Rattle.fx_program.specs.Plans.{asked_as, is_handed, named_in, plan_made, plans_of};

use fx_base::{Items, NoMemory};
use fx_plan::{Plan, plan};
use fx_statements::{Outcome, OutputSpec, Rep, Step};
use fx_vectors::Matrix;
use std::alloc::Global;
use std::marker::Model;

/// An OUTPUT statement of a step, with the matrix of the step, if that has one. Clauses see the names
/// of the step's factors, the matrix and the statement.
#[derive(Drop)]
pub(crate) struct AskedPlan<'a> {
    pub(crate) step: &'a Step,
    pub(crate) output: &'a OutputSpec,
    pub(crate) matrix: Option<Matrix>,
}

impl<'a> Model for AskedPlan<'a> {
    ghost use Rattle.fx_program.specs.Plans.{AskedView, IsAsked};

    ghost Value = { AskedView };

    ghost view = { λ a. record { factors = a.step.now.factors; matrix = a.matrix; output = a.output.now } };

    ghost invariant = { λ a. IsAsked a.step.now a.output.now a.matrix };
}

/// The OUTPUT statements of a program so far, in order.
pub(crate) type AskedPlans<'a> = Items<AskedPlan<'a>>;

/// An OUTPUT statement of a step with this outcome.
pub(crate) fn asked_plan<'a>(
    step: &'a Step,
    output: &'a OutputSpec,
    outcome: &Outcome,
) -> AskedPlan<'a>
    requires outcome { IsEnded step.now outcome.now }
    requires among { Contains step.now.outputs output.now }
    ensures { result ≡ asked_as step.now.factors outcome.now.matrix output.now }
{
    AskedPlan {
        step,
        output,
        matrix: copied(&outcome.matrix),
    }
}

fn copied(matrix: &Option<Matrix>) -> Option<Matrix>
    ensures { result ≡ matrix.now }
{
    match matrix {
        Some(matrix) => Some(matrix.copy()),
        None => None,
    }
}

/// The plan of the OUTPUT statement of this number, counted from 0, if it is written. Plans that it
/// names are made again: the rows of a plan are at least twice those of each plan that it names, so
/// this takes no longer than the plan itself, and no plan needs to be kept.
///
/// # Errors
///
/// `NoMemory`.
#[cycle(plans)]
pub(crate) fn plan_at(
    alloc: Global,
    seed: u64,
    asked: &[AskedPlan<'_>],
    number: usize,
) -> Result<Option<Plan>, NoMemory>
    requires { number < length asked.now }
    ensures { IfOk result (λ plan. plan ≡ slice_index_or (plans_of seed asked.now) number None) }
{
    let one = &asked[number];
    let matrix = match &one.matrix {
        Some(matrix) => matrix,
        None => return Ok(None),
    };
    let inner = named(alloc, seed, asked, number, one.output.pointrep)?;
    let outer = named(alloc, seed, asked, number, one.output.designrep)?;
    plan_made(alloc, seed, one, matrix, inner, outer)
}

/// The plan that POINTREP or DESIGNREP names among those before this number, if it names one, and that
/// is written.
#[cycle(plans)]
fn named(
    alloc: Global,
    seed: u64,
    asked: &[AskedPlan<'_>],
    before: usize,
    rep: Rep,
) -> Result<Option<Plan>, NoMemory>
    requires { before ≤ length asked.now }
    ensures { IfOk result (λ plan. plan ≡ named_in (plans_of seed (take before asked.now)) rep) }
{
    match rep {
        Rep::Times(_) => Ok(None),
        Rep::Plan(number) => {
            let number = number as usize;
            if number >= before {
                return Ok(None);
            }
            plan_at(alloc, seed, asked, number)
        }
    }
}

/// The plan of an OUTPUT statement with this matrix, repeated by the plans that it names, where these
/// are written.
fn plan_made(
    alloc: Global,
    seed: u64,
    asked: &AskedPlan<'_>,
    matrix: &Matrix,
    inner: Option<Plan>,
    outer: Option<Plan>,
) -> Result<Option<Plan>, NoMemory>
    requires { asked.now.matrix ≡ Some matrix.now }
    ensures { IfOk result (λ plan. plan
        ≡ plan_made seed asked.now.factors asked.now.output matrix.now inner outer) }
{
    let output = asked.output;
    if is_handed(output.pointrep, &inner) && is_handed(output.designrep, &outer) {
        let made = plan(alloc, asked.step, matrix, output, seed, inner, outer)?;
        return Ok(Some(made));
    }
    Ok(None)
}

/// Whether a plan is there exactly where one is named.
fn is_handed(rep: Rep, named: &Option<Plan>) -> bool
    ensures { result ≡ is_handed rep named.now }
{
    match rep {
        Rep::Times(_) => named.is_none(),
        Rep::Plan(_) => named.is_some(),
    }
}
