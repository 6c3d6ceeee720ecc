ghost use Rattle.std.specs.Prelude.{◌≡◌, ◌≤◌, ◌+◌, ◌++◌, ◌^◌, ◌==◌, ℕ, List, codes, decimal, if◌then◌else◌, length, OnErr, OnOk};
ghost use Rattle.fx_runs.specs.Runs.{design_of};
ghost use Rattle.fx_statements.specs.Steps.{meaning_of};
ghost use Rattle.fx_alias.specs.BlockWords.{block_words_of};
ghost use Rattle.fx_alias.specs.Given.{block_words_text, clear_line, confounded_line, given_head, met_line};
ghost use Rattle.fx_alias.specs.Given.{or_no_words, pairs_name};

use crate::block_words::block_words;
use crate::clear::{ClearCounts, clear_counts};
use crate::head::{put_design, put_heading, put_resolution};
use fx_base::{Bytes, NoMemory, put, put_number};
use fx_statements::Step;
use fx_vectors::{Matrix, Pattern, Shape};
use std::alloc::Global;

/// Appends the head of the listing of a step whose design is given: its number, its factors and
/// their levels, the design and its resolution, whether it meets the model, where that is known, how
/// many components of one and of two factors are clear, and what is confounded with blocks.
///
/// The matrix has all rows of its shape, a rule for each factor of the step, and at most 1,024
/// blocks.
///
/// # Errors
///
/// `NoMemory`; `out` is then as before.
pub fn given_listing(
    alloc: Global,
    number: usize,
    step: &Step,
    matrix: &Matrix,
    met: Option<bool>,
    out: &mut Bytes,
) -> Result<(), NoMemory>
    requires complete { length matrix.now.rows ≡ matrix.now.shape.s + matrix.now.shape.t }
    requires factors { matrix.now.shape.s ≡ length step.now.factors }
    requires few { matrix.now.shape.q ^ matrix.now.shape.t ≤ 1024 }
    ensures ok { OnOk result
        (out.new ≡ out.old ++ given_head number (meaning_of step.now) matrix.now met) }
    ensures err { OnErr result (out.new ≡ out.old) }
{
    let mut lines = Bytes::new(alloc);
    put_heading(&mut lines, number, step.factors.len(), matrix.shape().q)?;
    put_design(&mut lines, b" given", matrix.shape())?;
    put_resolution(alloc, &mut lines, b"", matrix)?;
    put_met(&mut lines, met)?;
    put_clear(alloc, &mut lines, matrix)?;
    put_confounded(alloc, &mut lines, matrix)?;
    put(out, lines.as_slice())
}

/// Appends whether the model is met, where that is known.
fn put_met(out: &mut Bytes, met: Option<bool>) -> Result<(), NoMemory>
    ensures { OnOk result (out.new ≡ out.old ++ met_line met) }
{
    match met {
        None => Ok(()),
        Some(true) => put(out, b"meets the model\n"),
        Some(false) => put(out, b"does not meet the model\n"),
    }
}

/// Appends how many factors and components of two factors are clear.
fn put_clear(alloc: Global, out: &mut Bytes, matrix: &Matrix) -> Result<(), NoMemory>
    requires complete { length matrix.now.rows ≡ matrix.now.shape.s + matrix.now.shape.t }
    requires few { matrix.now.shape.q ^ matrix.now.shape.t ≤ 1024 }
    ensures { OnOk result (out.new ≡ out.old ++ clear_line (design_of matrix.now)) }
{
    let counts = clear_counts(alloc, matrix)?;
    put_counts(out, matrix.shape(), counts)
}

/// Appends these counts of clear components.
fn put_counts(out: &mut Bytes, shape: Shape, counts: ClearCounts) -> Result<(), NoMemory>
    ensures { OnOk result (out.new ≡ out.old
        ++ (codes "clear " ++ (decimal counts.factors
        ++ (codes " of " ++ (decimal shape.s ++ (codes " factors, "
        ++ (decimal counts.pairs ++ (codes " of " ++ (decimal counts.all_pairs
        ++ (codes " " ++ (pairs_name shape.q ++ codes "\n"))))))))))) }
{
    put(out, b"clear ")?;
    put_share(out, counts.factors, usize::from(shape.s))?;
    put(out, b" factors, ")?;
    put_share(out, counts.pairs, counts.all_pairs)?;
    put(out, b" ")?;
    put(out, pairs_name(shape.q))?;
    put(out, b"\n")
}

/// Appends how many of how many.
fn put_share(out: &mut Bytes, some: usize, all: usize) -> Result<(), NoMemory>
    ensures { OnOk result (out.new ≡ out.old ++ (decimal some ++ (codes " of " ++ decimal all))) }
{
    put_number(out, some as u128)?;
    put(out, b" of ")?;
    put_number(out, all as u128)
}

/// What the components of two factors are called.
fn pairs_name(q: u8) -> &'static [u8]
    ensures { result.now ≡ pairs_name q }
{
    if q == 2 {
        b"two-factor interactions"
    } else {
        b"two-factor components"
    }
}

/// Appends what is confounded with blocks, where there are blocks.
fn put_confounded(alloc: Global, out: &mut Bytes, matrix: &Matrix) -> Result<(), NoMemory>
    requires complete { length matrix.now.rows ≡ matrix.now.shape.s + matrix.now.shape.t }
    requires few { matrix.now.shape.q ^ matrix.now.shape.t ≤ 1024 }
    ensures { OnOk result
        (out.new ≡ out.old ++ confounded_line matrix.now.shape.t (block_words_of matrix.now)) }
{
    if matrix.shape().t == 0 {
        return Ok(());
    }
    let words = block_words(alloc, matrix)?;
    put(out, b"confounded with blocks")?;
    put_words_or_none(out, &words)?;
    put(out, b"\n")
}

/// Appends how many words there are of each weight that has some, or that there are none.
fn put_words_or_none(out: &mut Bytes, words: &Pattern) -> Result<(), NoMemory>
    ensures { OnOk result (out.new ≡ out.old ++ or_no_words (block_words_text 1 words.now)) }
{
    let before = out.len();
    put_words(out, words)?;
    if out.len() == before {
        return put(out, b" none");
    }
    Ok(())
}

/// Appends how many words there are of each weight that has some.
fn put_words(out: &mut Bytes, words: &Pattern) -> Result<(), NoMemory>
    ensures { OnOk result (out.new ≡ out.old ++ block_words_text 1 words.now) }
{
    let words = words.as_slice();
    for i in 0..words.len() {
        put_weight(out, i + 1, words[i])?;
    }
    Ok(())
}

/// Appends how many words of a weight there are, where there is one.
fn put_weight(out: &mut Bytes, weight: usize, words: u128) -> Result<(), NoMemory>
    ensures { OnOk result ((rest : List ℕ)
        → out.new ++ rest
        ≡ out.old ++ (if words == 0 then rest
        else codes " B" ++ (decimal weight ++ (codes " " ++ (decimal words ++ rest))))) }
{
    if words == 0 {
        return Ok(());
    }
    put(out, b" B")?;
    put_number(out, weight as u128)?;
    put(out, b" ")?;
    put_number(out, words)
}
