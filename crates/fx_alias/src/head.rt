ghost use Rattle.std.specs.Prelude.{◌≡◌, ◌++◌, ◌^◌, ◌≤◌, length, OnErr, OnOk, IsTrue};
ghost use Rattle.fx_designs.specs.Galois.{is_order};
ghost use Rattle.fx_settings.specs.Powers.{greatest};
ghost use Rattle.fx_designs.specs.Patterns.{pattern_of};
ghost use Rattle.fx_vectors.specs.Shape.{IsShape, dimensions_of};
ghost use Rattle.fx_statements.specs.Outcomes.{ending_in};
ghost use Rattle.fx_statements.specs.Questions.{conclusion_in};
ghost use Rattle.fx_statements.specs.Steps.{meaning_of};
ghost use Rattle.fx_alias.specs.Heads.{blocks_words, budget_line, clear_line, clear_to, design_line, head_lines};
ghost use Rattle.fx_alias.specs.Heads.{heading, highest_claim, matrix_lines, no_design_line, nodes_line, outcome_lines};
ghost use Rattle.fx_alias.specs.Heads.{resolution_claim, resolution_line, runs_words, seeks_in_blocks};

use fx_base::{Bytes, NoMemory, put, put_number};
use fx_settings::greatest;
use fx_statements::{End, Outcome, Size, Step, StepSettings};
use fx_vectors::{Matrix, Pattern, Shape};
use fx_words::{pattern_of, resolution};
use std::alloc::Global;

/// Appends the head of the listing of a step: its number, its factors and their levels, its outcome,
/// the resolution of its matrix and, unless its budget ended, the number of nodes.
///
/// The outcome may be that of any step.
///
/// # Errors
///
/// `NoMemory`; `out` is then as before.
pub fn head_listing(
    alloc: Global,
    number: usize,
    step: &Step,
    outcome: &Outcome,
    out: &mut Bytes,
) -> Result<(), NoMemory>
    ensures ok { OnOk result
        (out.new
        ≡ out.old
        ++ head_lines number (meaning_of step.now) (conclusion_in outcome.now)) }
    ensures err { OnErr result (out.new ≡ out.old) }
{
    let mut lines = Bytes::new(alloc);
    put_head(alloc, number, step, outcome, &mut lines)?;
    put(out, lines.as_slice())
}

/// Appends the head.
fn put_head(
    alloc: Global,
    number: usize,
    step: &Step,
    outcome: &Outcome,
    out: &mut Bytes,
) -> Result<(), NoMemory>
    ensures { OnOk result
        (out.new
        ≡ out.old
        ++ head_lines number (meaning_of step.now) (conclusion_in outcome.now)) }
{
    put_heading(out, number, step.factors.len(), outcome.shape.q)?;
    put_outcome(alloc, out, step, outcome)
}

/// Appends the number of the step, its factors and their levels.
pub(crate) fn put_heading(out: &mut Bytes, number: usize, s: usize, q: u8) -> Result<(), NoMemory>
    ensures { OnOk result (out.new ≡ out.old ++ heading number s q) }
{
    put(out, b"step ")?;
    put_number(out, number as u128)?;
    put(out, b"\nfactors ")?;
    put_number(out, s as u128)?;
    put(out, b" levels ")?;
    put_number(out, u128::from(q))?;
    put(out, b"\n")
}

/// Appends how the search of a step ended, the resolution of its matrix and, unless the budget ended,
/// the number of nodes.
fn put_outcome(
    alloc: Global,
    out: &mut Bytes,
    step: &Step,
    outcome: &Outcome,
) -> Result<(), NoMemory>
    ensures { OnOk result
        (out.new
        ≡ out.old
        ++ outcome_lines (meaning_of step.now) (dimensions_of outcome.now.shape) outcome.now.reached
        (ending_in outcome.now)) }
{
    match outcome.end {
        End::Design => {
            put_matrix(alloc, out, step, outcome, b"", claim_of(step), b" highest")?;
            put_nodes(out, outcome.nodes)
        }
        End::NoDesign => {
            put_no_design(out, step.settings.size, outcome.shape)?;
            put_nodes(out, outcome.nodes)
        }
        End::Budget => {
            put_budget(out, outcome.nodes)?;
            put_matrix(alloc, out, step, outcome, b" not proved best", b"", b"")
        }
    }
}

/// Appends the runs and the blocks of a design, with a caveat where there is one.
pub(crate) fn put_design(out: &mut Bytes, caveat: &[u8], shape: Shape) -> Result<(), NoMemory>
    requires { IsShape shape }
    ensures { OnOk result (out.new ≡ out.old ++ design_line caveat.now (dimensions_of shape)) }
{
    put(out, b"design ")?;
    put_runs(out, shape.runs())?;
    put_blocks(out, b" in ", shape)?;
    put(out, caveat)?;
    put(out, b"\n")
}

/// Appends that there is no design of a step of this size, where the search ended at this shape.
fn put_no_design(out: &mut Bytes, size: Size, shape: Shape) -> Result<(), NoMemory>
    requires { IsShape shape }
    ensures { OnOk result (out.new ≡ out.old ++ no_design_line size (dimensions_of shape)) }
{
    match size {
        Size::Runs { m: _m } => {
            put(out, b"no design in ")?;
            put_runs(out, shape.runs())?;
            put_blocks(out, b" with ", shape)?;
            put(out, b"\n")
        }
        Size::Minimum => {
            put(out, b"no design in at most ")?;
            put_runs(out, most_runs(shape.q))?;
            put(out, b"\n")
        }
    }
}

/// The greatest number of runs.
fn most_runs(q: u8) -> u16
    requires { IsTrue (is_order q) }
    ensures { result ≡ q ^ greatest q }
{
    u16::from(q).pow(u32::from(greatest(q)))
}

/// Appends a number of runs.
fn put_runs(out: &mut Bytes, runs: u16) -> Result<(), NoMemory>
    ensures { OnOk result (out.new ≡ out.old ++ runs_words runs) }
{
    put_number(out, u128::from(runs))?;
    put(out, b" runs")
}

/// Appends the number of blocks after this word, where there are blocks.
fn put_blocks(out: &mut Bytes, word: &[u8], shape: Shape) -> Result<(), NoMemory>
    requires { IsShape shape }
    ensures { OnOk result (out.new ≡ out.old ++ blocks_words word.now (dimensions_of shape)) }
{
    if shape.t == 0 {
        return Ok(());
    }
    put(out, word)?;
    put_number(out, u128::from(block_count(shape)))?;
    put(out, b" blocks")
}

/// The number of blocks.
fn block_count(shape: Shape) -> u32
    requires { IsShape shape }
    ensures { result ≡ shape.q ^ shape.t }
{
    u32::from(shape.q).pow(u32::from(shape.t))
}

/// Appends that the budget ended.
fn put_budget(out: &mut Bytes, budget: u64) -> Result<(), NoMemory>
    ensures { OnOk result (out.new ≡ out.old ++ budget_line budget) }
{
    put(out, b"budget ended after ")?;
    put_number(out, u128::from(budget))?;
    put(out, b" nodes\n")
}

/// Appends the design of an outcome, if it has one: its line with a caveat, that of its resolution
/// with a claim, and, where the highest resolution is wanted in blocks, that of its blocks with another.
fn put_matrix(
    alloc: Global,
    out: &mut Bytes,
    step: &Step,
    outcome: &Outcome,
    caveat: &[u8],
    claim: &[u8],
    clear: &[u8],
) -> Result<(), NoMemory>
    ensures { OnOk result
        (out.new
        ≡ out.old
        ++ matrix_lines caveat.now claim.now
        (clear_line (meaning_of step.now) clear.now outcome.now.reached) outcome.now.matrix) }
{
    let Some(matrix) = &outcome.matrix else {
        return Ok(());
    };
    put_design(out, caveat, matrix.shape())?;
    put_resolution(alloc, out, claim, matrix)?;
    put_clear(out, step, clear, outcome.reached)
}

/// Appends the resolution that a design meets with its blocks, and what is claimed of it, where the
/// highest is wanted in blocks.
fn put_clear(out: &mut Bytes, step: &Step, claim: &[u8], r: u8) -> Result<(), NoMemory>
    ensures { OnOk result (out.new ≡ out.old ++ clear_line (meaning_of step.now) claim.now r) }
{
    if seeks_in_blocks(step.settings) {
        return put_clear_to(out, claim, r);
    }
    Ok(())
}

/// Appends that the blocks are clear to this resolution, and what is claimed of it.
fn put_clear_to(out: &mut Bytes, claim: &[u8], r: u8) -> Result<(), NoMemory>
    ensures { OnOk result (out.new ≡ out.old ++ clear_to claim.now r) }
{
    put(out, b"blocks clear to resolution ")?;
    put_number(out, u128::from(r))?;
    put(out, claim)?;
    put(out, b"\n")
}

/// Whether the highest resolution is wanted in blocks.
fn seeks_in_blocks(settings: StepSettings) -> bool
    ensures { result ≡ seeks_in_blocks settings }
{
    settings.criterion.is_highest() && settings.blocks.are_some()
}

/// What is claimed of the resolution of a design of the step: that no pattern is less, or that no
/// resolution is higher.
fn claim_of(step: &Step) -> &'static [u8]
    ensures { result.now ≡ resolution_claim (meaning_of step.now) }
{
    if step.settings.least {
        b" least aberration"
    } else {
        highest_claim(step.settings)
    }
}

/// That no resolution is higher, where the highest is wanted; in blocks it is claimed elsewhere.
fn highest_claim(settings: StepSettings) -> &'static [u8]
    ensures { result.now ≡ highest_claim settings }
{
    if settings.criterion.is_highest() && !settings.blocks.are_some() {
        b" highest"
    } else {
        b""
    }
}

/// Appends the resolution of a design and what is claimed of it, or that it has no defining words.
pub(crate) fn put_resolution(
    alloc: Global,
    out: &mut Bytes,
    claim: &[u8],
    matrix: &Matrix,
) -> Result<(), NoMemory>
    ensures { OnOk result
        (out.new
        ≡ out.old
        ++ resolution_line claim.now
        (pattern_of (dimensions_of matrix.now.shape) matrix.now.rows)) }
{
    let pattern = pattern_of(alloc, matrix)?;
    // A design has at most `MOST_FACTORS` factors.
    let _shape = matrix.shape();
    put_resolution_of(out, claim, &pattern)
}

/// Appends the resolution of a pattern and what is claimed of it, or that there are no defining words.
pub(crate) fn put_resolution_of(
    out: &mut Bytes,
    claim: &[u8],
    pattern: &Pattern,
) -> Result<(), NoMemory>
    requires { length pattern.now ≤ 254 }
    ensures { OnOk result (out.new ≡ out.old ++ resolution_line claim.now pattern.now) }
{
    let r = resolution(pattern);
    if usize::from(r) > pattern.len() {
        return put(out, b"no defining words\n");
    }
    put(out, b"resolution ")?;
    put_number(out, u128::from(r))?;
    put(out, claim)?;
    put(out, b"\n")
}

/// Appends the number of nodes.
fn put_nodes(out: &mut Bytes, nodes: u64) -> Result<(), NoMemory>
    ensures { OnOk result (out.new ≡ out.old ++ nodes_line nodes) }
{
    put(out, b"nodes ")?;
    put_number(out, u128::from(nodes))?;
    put(out, b"\n")
}
