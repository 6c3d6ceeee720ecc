ghost use Rattle.std.specs.Prelude.{◌≡◌, ◌≤◌, ◌+◌, ◌^◌, [], ◌++◌, if◌then◌else◌, OnErr, OnOk, length};
ghost use Rattle.fx_designs.specs.Patterns.{pattern_of};
ghost use Rattle.fx_vectors.specs.Shape.{dimensions_of};
ghost use Rattle.fx_runs.specs.Runs.{design_of};
ghost use Rattle.fx_vectors.specs.Question.{requirement_of};
ghost use Rattle.fx_statements.specs.Steps.{meaning_of};
ghost use Rattle.fx_alias.specs.Aliasing.{alias_section, listed_components};
ghost use Rattle.fx_alias.specs.Blocked.{blocked_section};
ghost use Rattle.fx_alias.specs.Patterns.{pattern_lines};
ghost use Rattle.fx_alias.specs.Points.{design_section};
ghost use Rattle.fx_alias.specs.Sections.{examined};

use crate::aliasing::alias_listing;
use crate::blocked::blocked_listing;
use crate::design::design_listing;
use crate::marks::BlockMarks;
use crate::pattern::pattern_listing;
use fx_base::{Bytes, NoMemory, put};
use fx_statements::Step;
use fx_vectors::Matrix;
use std::alloc::Global;

/// Appends the sections that the step's EXAMINE statements ask for: the runs, the aliases, what is
/// confounded with blocks, and the word-length pattern. With marks a class of aliases that is
/// confounded with blocks says so.
///
/// The matrix has all rows of its shape, and a rule for each factor of the step.
///
/// # Errors
///
/// `NoMemory`; `out` is then as before.
pub fn examine_listing(
    alloc: Global,
    marks: BlockMarks,
    step: &Step,
    matrix: &Matrix,
    out: &mut Bytes,
) -> Result<(), NoMemory>
    requires complete { length matrix.now.rows ≡ matrix.now.shape.s + matrix.now.shape.t }
    requires factors { matrix.now.shape.s ≡ length step.now.factors }
    requires few { matrix.now.shape.q ^ matrix.now.shape.t ≤ 1024 }
    ensures ok { OnOk result
        (out.new ≡ out.old ++ examined marks (meaning_of step.now) matrix.now) }
    ensures err { OnErr result (out.new ≡ out.old) }
{
    let mut lines = Bytes::new(alloc);
    put_sections(alloc, marks, step, matrix, &mut lines)?;
    put(out, lines.as_slice())
}

/// Appends the sections.
fn put_sections(
    alloc: Global,
    marks: BlockMarks,
    step: &Step,
    matrix: &Matrix,
    out: &mut Bytes,
) -> Result<(), NoMemory>
    requires complete { length matrix.now.rows ≡ matrix.now.shape.s + matrix.now.shape.t }
    requires factors { matrix.now.shape.s ≡ length step.now.factors }
    requires few { matrix.now.shape.q ^ matrix.now.shape.t ≤ 1024 }
    ensures { OnOk result
        (out.new ≡ out.old ++ examined marks (meaning_of step.now) matrix.now) }
{
    put_design(alloc, step, matrix, out)?;
    put_aliases(alloc, marks, step, matrix, out)?;
    put_blocked(alloc, step, matrix, out)?;
    put_pattern(alloc, step, matrix, out)
}

/// Appends the section of the runs, where it is asked for.
fn put_design(alloc: Global, step: &Step, matrix: &Matrix, out: &mut Bytes) -> Result<(), NoMemory>
    requires complete { length matrix.now.rows ≡ matrix.now.shape.s + matrix.now.shape.t }
    requires few { matrix.now.shape.q ^ matrix.now.shape.t ≤ 1024 }
    ensures { OnOk result
        (out.new
        ≡ out.old ++ (if step.now.examine.design
        then design_section step.now.factors (design_of matrix.now) else [])) }
{
    if step.examine.design {
        design_listing(alloc, step, matrix, out)
    } else {
        Ok(())
    }
}

/// Appends the section of the aliases, where it is asked for.
fn put_aliases(
    alloc: Global,
    marks: BlockMarks,
    step: &Step,
    matrix: &Matrix,
    out: &mut Bytes,
) -> Result<(), NoMemory>
    requires complete { length matrix.now.rows ≡ matrix.now.shape.s + matrix.now.shape.t }
    requires factors { matrix.now.shape.s ≡ length step.now.factors }
    requires few { matrix.now.shape.q ^ matrix.now.shape.t ≤ 1024 }
    ensures { OnOk result
        (out.new
        ≡ out.old ++ (if step.now.examine.aliasing
        then alias_section marks step.now.factors (design_of matrix.now)
        (listed_components matrix.now.shape.q matrix.now.shape.s (requirement_of step.now.demands)) else [])) }
{
    if step.examine.aliasing {
        alias_listing(alloc, marks, step, matrix, out)
    } else {
        Ok(())
    }
}

/// Appends the section of what is confounded with blocks, where it is asked for.
fn put_blocked(alloc: Global, step: &Step, matrix: &Matrix, out: &mut Bytes) -> Result<(), NoMemory>
    requires complete { length matrix.now.rows ≡ matrix.now.shape.s + matrix.now.shape.t }
    requires factors { matrix.now.shape.s ≡ length step.now.factors }
    requires few { matrix.now.shape.q ^ matrix.now.shape.t ≤ 1024 }
    ensures { OnOk result
        (out.new
        ≡ out.old ++ (if step.now.examine.blocked
        then blocked_section step.now.factors (design_of matrix.now)
        (listed_components matrix.now.shape.q matrix.now.shape.s (requirement_of step.now.demands)) else [])) }
{
    if step.examine.blocked {
        blocked_listing(alloc, step, matrix, out)
    } else {
        Ok(())
    }
}

/// Appends the section of the word-length pattern, where it is asked for.
fn put_pattern(alloc: Global, step: &Step, matrix: &Matrix, out: &mut Bytes) -> Result<(), NoMemory>
    ensures { OnOk result
        (out.new
        ≡ out.old ++ (if step.now.examine.aberration
        then pattern_lines (pattern_of (dimensions_of matrix.now.shape) matrix.now.rows)
        else [])) }
{
    if step.examine.aberration {
        pattern_listing(alloc, matrix, out)
    } else {
        Ok(())
    }
}
