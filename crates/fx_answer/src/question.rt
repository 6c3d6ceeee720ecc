ghost use Rattle.std.specs.Prelude.{◌≡◌, ◌≤◌, ◌<◌, ℕ, IfOk};
ghost use Rattle.fx_settings.specs.declared.settings.Blocks.TheVariants.{PerBlock};
ghost use Rattle.fx_vectors.specs.Question.{IsValid, problem_of, requirement_of};
ghost use Rattle.fx_vectors.specs.Shape.{dimensions_of};
ghost use Rattle.fx_statements.specs.Steps.{meaning_of};
ghost use Rattle.fx_statements.specs.Questions.{
  block_factors,
  highest,
  least_exponent,
  lowest,
  question_for,
  requirement_for,
  resolution_wanted,
  run_factors,
  seeks_highest,
};
ghost use Rattle.fx_answer.specs.Standing.{IsShapeOf};

use fx_base::NoMemory;
use fx_settings::greatest;
use fx_statements::{Blocks, Size, Step, StepSettings};
use fx_vectors::{Demands, Effects, Question, Shape};
use std::alloc::Global;

/// The first number for which a step asks a question: a size, a number of block factors or a
/// resolution, whichever it leaves free.
pub(crate) fn lowest(step: &Step) -> u8
    ensures { result ≡ lowest (meaning_of step.now) step.now.settings.size }
{
    match step.settings.size {
        Size::Minimum => least_exponent(step.settings.blocks),
        Size::Runs { .. } => {
            if step.settings.blocks.are_most() {
                1
            } else {
                3
            }
        }
    }
}

/// The last number.
pub(crate) fn highest(step: &Step) -> u8
    ensures { result ≡ highest (meaning_of step.now) step.now.settings.size }
{
    match step.settings.size {
        Size::Minimum => greatest(step.settings.q),
        Size::Runs { m } => {
            if step.settings.blocks.are_most() {
                m
            } else if seeks_highest(step.settings) {
                (step.factors.len() as u8 + 1).max(3)
            } else {
                3
            }
        }
    }
}

/// The question of a step for the number `n`: of its size, its block factors or its resolution, whichever
/// it leaves free; for a step that leaves nothing free the question for 3 is the only one.
///
/// # Errors
///
/// `NoMemory`.
pub fn question_for(alloc: Global, step: &Step, n: u8) -> Result<Question, NoMemory>
    requires low { lowest (meaning_of step.now) step.now.settings.size ≤ n }
    requires high { n ≤ highest (meaning_of step.now) step.now.settings.size }
    ensures problem { IfOk result (λ question. problem_of question ≡ question_for (meaning_of step.now) n) }
    ensures valid { IfOk result IsValid }
    ensures of_step { IfOk result (λ question. IsShapeOf (meaning_of step.now) question.shape) }
{
    Ok(Question {
        shape: shape_for(step, n),
        demands: demands_for(alloc, step, n)?,
        least: step.settings.least,
    })
}

/// The shape of the designs that the question for the number `n` is about.
fn shape_for(step: &Step, n: u8) -> Shape
    requires low { lowest (meaning_of step.now) step.now.settings.size ≤ n }
    requires high { n ≤ highest (meaning_of step.now) step.now.settings.size }
    ensures dimensions { dimensions_of result ≡ (question_for (meaning_of step.now) n).dimensions }
    ensures of_step { IsShapeOf (meaning_of step.now) result }
{
    let m = run_factors(step.settings.size, n);
    Shape {
        q: step.settings.q,
        m,
        s: step.factors.len() as u8,
        t: block_factors(step.settings.blocks, m, n),
    }
}

/// The m of q^m runs: that of a fixed size, or `n` for the least size.
fn run_factors(size: Size, n: u8) -> u8
    ensures { result ≡ run_factors size n }
{
    match size {
        Size::Runs { m } => m,
        Size::Minimum => n,
    }
}

/// The number of block factors in q^m runs.
fn block_factors(blocks: Blocks, m: u8, n: u8) -> u8
    ensures { result ≡ block_factors blocks m n }
{
    match blocks {
        Blocks::Without => 0,
        Blocks::Factors { t } => t,
        Blocks::PerBlock { k } => m.saturating_sub(k),
        Blocks::Most => n,
    }
}

/// The least m with which there is more than one run and more than one block.
fn least_exponent(blocks: Blocks) -> u8
    requires { (k : ℕ) → blocks ≡ PerBlock k → k < 10 }
    ensures { result ≡ least_exponent blocks }
{
    match blocks {
        Blocks::Without | Blocks::Factors { .. } | Blocks::Most => 1,
        Blocks::PerBlock { k } => k + 1,
    }
}

/// Whether the resolution is free. With a least pattern each design has the highest.
fn seeks_highest(settings: StepSettings) -> bool
    ensures { result ≡ seeks_highest settings }
{
    settings.criterion.is_highest() && !settings.least
}

/// What is demanded of one design by the question for the number `n`.
fn demands_for(alloc: Global, step: &Step, n: u8) -> Result<Demands, NoMemory>
    ensures { IfOk result (λ demands.
        requirement_of demands ≡ requirement_for (meaning_of step.now) n) }
{
    if seeks_highest(step.settings) {
        Ok(Demands::Resolution { r: n })
    } else {
        copied(alloc, &step.demands)
    }
}

/// The same demands once more.
fn copied(alloc: Global, demands: &Demands) -> Result<Demands, NoMemory>
    ensures { IfOk result (λ copy. requirement_of copy ≡ requirement_of demands.now) }
{
    match demands {
        Demands::Resolution { r } => Ok(Demands::Resolution { r: *r }),
        Demands::Effects {
            estimate,
            nonnegligible,
        } => Ok(Demands::Effects {
            estimate: Effects::from_slice(alloc, estimate.as_slice())?,
            nonnegligible: Effects::from_slice(alloc, nonnegligible.as_slice())?,
        }),
    }
}

/// The resolution that is demanded, or 0 where effects are to be estimated.
pub(crate) fn resolution_wanted(demands: &Demands) -> u8
    ensures { result ≡ resolution_wanted (requirement_of demands.now) }
{
    match demands {
        Demands::Resolution { r } => *r,
        Demands::Effects { .. } => 0,
    }
}
