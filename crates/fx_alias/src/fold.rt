ghost use Rattle.std.specs.Prelude.{◌≡◌, ◌+◌, ◌++◌, length, OnErr, OnOk};
ghost use Rattle.fx_designs.specs.Vectors.{vectors_of};
ghost use Rattle.fx_foldover.specs.Foldovers.{combined_pattern};
ghost use Rattle.fx_settings.specs.declared.settings.Blocks.TheVariants.{Without};
ghost use Rattle.fx_statements.specs.Steps.{meaning_of};
ghost use Rattle.fx_alias.specs.Folds.{fold_section, fold_text};

use crate::head::put_resolution_of;
use crate::lines::lent;
use crate::pattern::put_words;
use fx_base::{Bytes, NoMemory, put};
use fx_components::put_product;
use fx_foldover::fold_pattern;
use fx_statements::{Fold, Names, Step};
use fx_vectors::{Matrix, Vector};
use std::alloc::Global;

/// Appends what is listed of the fold-over of a design, where the step asks for one: the folded
/// factors, and the resolution and word-length pattern of both halves together (Wu and Hamada).
///
/// The matrix has all rows of its shape, the levels of the step, a rule for each of its factors, and
/// no block factor where the step has no blocks.
///
/// # Errors
///
/// `NoMemory`; `out` is then as before.
pub fn fold_listing(
    alloc: Global,
    step: &Step,
    matrix: &Matrix,
    out: &mut Bytes,
) -> Result<(), NoMemory>
    requires complete { length matrix.now.rows ≡ matrix.now.shape.s + matrix.now.shape.t }
    requires factors { matrix.now.shape.s ≡ length step.now.factors }
    requires levels { matrix.now.shape.q ≡ step.now.settings.q }
    requires unblocked { step.now.settings.blocks ≡ Without → matrix.now.shape.t ≡ 0 }
    ensures ok { OnOk result
        (out.new ≡ out.old ++ fold_section (meaning_of step.now) matrix.now) }
    ensures err { OnErr result (out.new ≡ out.old) }
{
    match &step.fold {
        Fold::Without => Ok(()),
        Fold::Factors(folded) => {
            let mut lines = Bytes::new(alloc);
            put_fold(alloc, &step.factors, matrix, folded, &mut lines)?;
            put(out, lines.as_slice())
        }
    }
}

/// Appends the lines of a fold of these factors.
fn put_fold(
    alloc: Global,
    factors: &Names,
    matrix: &Matrix,
    folded: &Vector,
    out: &mut Bytes,
) -> Result<(), NoMemory>
    requires levels { matrix.now.shape.q ≡ 2 }
    requires no_blocks { matrix.now.shape.t ≡ 0 }
    requires complete { length matrix.now.rows ≡ matrix.now.shape.s }
    requires factors { length factors.now ≡ matrix.now.shape.s }
    requires fold { length folded.now ≡ matrix.now.shape.s }
    ensures { let m = matrix.now.shape.m in
        OnOk result (out.new
        ≡ out.old ++ fold_text factors.now folded.now
        (combined_pattern m folded.now (vectors_of 2 m matrix.now.rows))) }
{
    let pattern = fold_pattern(alloc, matrix, folded)?;
    // A design has at most `MOST_FACTORS` factors.
    let _shape = matrix.shape();
    let names = lent(alloc, factors)?;
    put(out, b"foldover ")?;
    put_product(out, names.as_slice(), folded)?;
    put(out, b"\n  ")?;
    put_resolution_of(out, b"", &pattern)?;
    put_words(out, b"B", &pattern)
}
