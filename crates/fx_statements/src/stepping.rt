ghost use Rattle.std.specs.Prelude.{◌≡◌, ℕ, ◌≤◌, ◌^◌, true, false, is_some, Some, None, Ok, length, IfOk, IfErr};
ghost use Rattle.fx_language.specs.declared.symbol.Symbol.TheVariants as word;
ghost use Rattle.fx_text.specs.Statements.{statement_of};
ghost use Rattle.std.specs.List.{AllByRecursion, IsDistinct};
ghost use Rattle.fx_language.specs.Grammar as grammar;
ghost use Rattle.fx_text.specs.Sentences.{HasNames, IsAccepted, IsStatement};
ghost use Rattle.fx_settings.specs.declared.settings.Blocks.TheVariants.{Factors};
ghost use Rattle.fx_settings.specs.Settings.{is_level, levels_of};
ghost use Rattle.fx_settings.specs.Valid.{are_valid, has_blocks, is_size};
ghost use Rattle.fx_text.specs.Names.{is_same_name};
ghost use Rattle.fx_text.specs.Refusals.{IsRefused};
ghost use Rattle.fx_outputs.specs.Earlier.{plan_names};
ghost use Rattle.fx_statements.specs.Contexts.{block_count, context, most_runs};
ghost use Rattle.fx_statements.specs.Requirements.{IsOfKind};
ghost use Rattle.fx_statements.specs.Valid.{CanBeRequired, HasFewComponents, most_factors_of};
ghost use Rattle.fx_statements.specs.Steps.{asked_by, examine_of, factors_by, head_of, meaning_of, plans_after, step_by, step_of};
ghost use Rattle.fx_vectors.specs.Question.{requirement_of};
ghost use Rattle.fx_vectors.specs.declared.shape.TheConstants.{MOST_FACTORS};

use crate::components::check_components;
use crate::demands::demands_by;
use crate::examine::examine_of;
use crate::fold::fold_of;
use crate::step::Step;
use fx_base::Bytes;
use fx_language::{Symbol, code};
use fx_outputs::{BlockCount, EarlierPlans, OutputContext, outputs};
use fx_settings::{
    Blocks, Size, StepSaid, StepSettings, factors_of, greatest, levels_of, step_said,
    step_settings_of, unblocked_of,
};
use fx_text::{Names, ParseStop, Phrase, Place, Refusal, Statement, find};
use fx_vectors::{Demands, MOST_FACTORS, MOST_FACTORS_IN_BLOCKS, MOST_FACTORS_OF_MANY_LEVELS};
use std::alloc::Global;

/// The step of some statements, the first of which is its PROC statement. `earlier` are the
/// plans of earlier steps of the program; those of this step are added.
///
/// # Errors
///
/// The first refusal: E7; those of the factors, of the settings without blocks, of the effects, and
/// of the blocks; E23 for a listing; those of the fold; those of each OUTPUT statement in order. And
/// `NoMemory`.
pub(crate) fn step_of(
    alloc: Global,
    earlier: &mut EarlierPlans,
    statements: &[Statement<'_>],
) -> Result<Step, ParseStop>
    requires accepted { AllByRecursion IsAccepted statements.now }
    requires differ { IsDistinct is_same_name (plan_names earlier.old) }
    ensures step { IfOk result (λ step. step_of earlier.old statements.now ≡ Ok (meaning_of step)) }
    ensures plans { IfOk result (λ step. earlier.new ≡ plans_after earlier.old (meaning_of step)) }
    ensures differ { IfOk result (λ step. IsDistinct is_same_name (plan_names earlier.new)) }
    ensures refused { IfErr result (IsRefused (step_of earlier.old statements.now)) }
{
    match find(Symbol::Factors, statements) {
        None => Err(ParseStop::Refused(Refusal::at(head_of(statements).place(), code::NO_FACTORS))),
        Some(named) => step_by(alloc, earlier, statements, &named),
    }
}

fn step_by(
    alloc: Global,
    earlier: &mut EarlierPlans,
    statements: &[Statement<'_>],
    named: &Phrase<'_>,
) -> Result<Step, ParseStop>
    requires accepted { AllByRecursion IsAccepted statements.now }
    requires differ { IsDistinct is_same_name (plan_names earlier.old) }
    requires by_grammar { IsStatement grammar.factors named.now }
    requires names { HasNames named.now }
    ensures step { IfOk result (λ step.
        step_by earlier.old statements.now (Some named.now) ≡ Ok (meaning_of step)) }
    ensures plans { IfOk result (λ step. earlier.new ≡ plans_after earlier.old (meaning_of step)) }
    ensures differ { IfOk result (λ step. IsDistinct is_same_name (plan_names earlier.new)) }
    ensures refused { IfErr result
        (IsRefused (step_by earlier.old statements.now (Some named.now))) }
{
    let proc = head_of(statements);
    let said = step_said(&proc, named, statements);
    let factors = factors_by(
        alloc,
        proc.place(),
        factor_limit(levels_of(said), statements),
        named,
    )?;
    let (settings, demands) = asked_by(alloc, factors.as_slice(), said, statements)?;
    let fold = fold_of(alloc, factors.as_slice(), settings, statements)?;
    let context = context_of(factors.as_slice(), settings);
    let outputs = outputs(alloc, &context, earlier, statements)?;
    Ok(Step {
        factors,
        settings,
        demands,
        examine: examine_of(statements),
        fold,
        outputs,
    })
}

/// The factors by a FACTORS statement, at most so many. `proc` is the place of PROC.
fn factors_by(
    alloc: Global,
    proc: Place,
    most: usize,
    named: &Phrase<'_>,
) -> Result<Names, ParseStop>
    ensures factors { IfOk result (λ factors. factors_by proc most named.now ≡ Ok factors) }
    ensures bounds { IfOk result (λ factors. (1 ≤ length factors) × (length factors ≤ most)) }
    ensures distinct { IfOk result (IsDistinct is_same_name) }
    ensures refused { IfErr result (IsRefused (factors_by proc most named.now)) }
{
    let factors = factors_of(alloc, named, most)?;
    if factors.is_empty() {
        return Err(ParseStop::Refused(Refusal::at(proc, code::NO_FACTORS)));
    }
    Ok(factors)
}

/// The settings of a step with these factors, and what it demands, by what its statements say.
///
/// # Errors
///
/// The first refusal: of the settings but for the blocks, of the effects, of the blocks; E23 for a
/// listing. And `NoMemory`.
fn asked_by(
    alloc: Global,
    factors: &[Bytes],
    said: StepSaid,
    statements: &[Statement<'_>],
) -> Result<(StepSettings, Demands), ParseStop>
    requires some { 1 ≤ length factors.now }
    requires few { length factors.now ≤ MOST_FACTORS }
    ensures asked { IfOk result (λ asked.
        asked_by factors.now said statements.now ≡ Ok (asked.0, requirement_of asked.1)) }
    ensures settings_valid { IfOk result (λ asked. are_valid asked.0 ≡ true) }
    ensures levels { IfOk result (λ asked. asked.0.q ≡ levels_of said) }
    ensures kind { IfOk result (λ asked. IsOfKind asked.0.criterion (requirement_of asked.1)) }
    ensures askable { IfOk result (λ asked.
        CanBeRequired asked.0.q (length factors.now) (requirement_of asked.1)) }
    ensures few_components { IfOk result (λ asked.
        HasFewComponents asked.0.q (length factors.now) (requirement_of asked.1)
        (examine_of statements.now)) }
    ensures unblocked { IfOk result (λ asked.
        said.blocks ≡ None → has_blocks asked.0.blocks ≡ false) }
    ensures refused { IfErr result (IsRefused (asked_by factors.now said statements.now)) }
{
    let s = factors.len() as u8;
    let unblocked = unblocked_of(s, said)?;
    let demands = demands_by(alloc, unblocked.q, factors, statements, unblocked.criterion)?;
    let settings = step_settings_of(unblocked, said)?;
    check_components(unblocked.q, s, &demands, statements)?;
    Ok((settings, demands))
}

/// The first of some statements.
fn head_of<'a>(statements: &[Statement<'a>]) -> Statement<'a>
    ensures { result ≡ head_of statements.now }
{
    if statements.is_empty() {
        Phrase::new(&[])
    } else {
        Phrase::new(statements[0].lexemes())
    }
}

/// How many factors of q levels a step may have: fewer with blocks.
fn factor_limit(q: u128, statements: &[Statement<'_>]) -> usize
    ensures value { result ≡ most_factors_of q (is_some (statement_of word.Blocks statements.now)) }
    ensures bound { result ≤ MOST_FACTORS }
{
    if find(Symbol::Blocks, statements).is_some() {
        MOST_FACTORS_IN_BLOCKS
    } else if q == 2 || q == 3 {
        MOST_FACTORS
    } else {
        MOST_FACTORS_OF_MANY_LEVELS
    }
}

/// What the OUTPUT statements of the step are read against.
fn context_of<'a>(factors: &'a [Bytes], settings: StepSettings) -> OutputContext<'a>
    requires few { length factors.now ≤ MOST_FACTORS }
    requires valid { are_valid settings ≡ true }
    ensures { result ≡ context factors.now settings }
{
    OutputContext::new(
        factors,
        settings.q,
        most_runs(settings.q, settings.size),
        block_count(settings.q, settings.blocks),
    )
}

/// The greatest number of runs.
fn most_runs(q: u8, size: Size) -> u32
    requires levels { is_level q ≡ true }
    requires size { is_size q size ≡ true }
    ensures { result ≡ most_runs q size }
{
    match size {
        Size::Runs { m } => u32::from(q).pow(u32::from(m)),
        Size::Minimum => u32::from(q).pow(u32::from(greatest(q))),
    }
}

/// The number of blocks, where it is fixed.
fn block_count(q: u8, blocks: Blocks) -> BlockCount
    requires { (t : ℕ) → blocks ≡ Factors t → q ^ t ≤ 1024 }
    ensures { result ≡ block_count q blocks }
{
    match blocks {
        Blocks::Without => BlockCount::Without,
        Blocks::Factors { t } => BlockCount::Fixed(u32::from(q).pow(u32::from(t))),
        Blocks::PerBlock { .. } | Blocks::Most => BlockCount::Open,
    }
}
