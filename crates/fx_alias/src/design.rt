ghost use Rattle.std.specs.Prelude.{◌≡◌, ◌<◌, ◌≤◌, ◌+◌, ◌^◌, ◌==◌, [], ◌++◌, OnErr, OnOk, if◌then◌else◌, length, take, codes, decimal};
ghost use Rattle.std.specs.List.{flat_map, range_with_len};
ghost use Rattle.fx_designs.specs.Vectors.{IsVector};
ghost use Rattle.fx_runs.specs.Runs.{design_of};
ghost use Rattle.fx_runs.specs.RunBlocks.{block_of};
ghost use Rattle.fx_runs.specs.Levels.{default_values};
ghost use Rattle.fx_alias.specs.Points.{block_word, columns_line, design_section, level_word, point_line, word};

use fx_base::{Bytes, Items, NoMemory, put, put_number};
use fx_runs::{Runs, block_number, default_values, list_runs};
use fx_statements::Step;
use fx_text::Names;
use fx_vectors::{Matrix, Vector};
use std::alloc::Global;

/// Appends the section with the runs of a design: a line for each, with its number, its block where
/// there are blocks, and the default value of each factor.
///
/// The matrix has all rows of its shape.
///
/// # Errors
///
/// `NoMemory`; `out` is then as before.
pub fn design_listing(
    alloc: Global,
    step: &Step,
    matrix: &Matrix,
    out: &mut Bytes,
) -> Result<(), NoMemory>
    requires complete { length matrix.now.rows ≡ matrix.now.shape.s + matrix.now.shape.t }
    requires few { matrix.now.shape.q ^ matrix.now.shape.t ≤ 1024 }
    ensures ok { OnOk result
        (out.new ≡ out.old ++ design_section step.now.factors (design_of matrix.now)) }
    ensures err { OnErr result (out.new ≡ out.old) }
{
    let mut lines = Bytes::new(alloc);
    put_section(alloc, step, matrix, &mut lines)?;
    put(out, lines.as_slice())
}

/// Appends the section.
fn put_section(alloc: Global, step: &Step, matrix: &Matrix, out: &mut Bytes) -> Result<(), NoMemory>
    requires complete { length matrix.now.rows ≡ matrix.now.shape.s + matrix.now.shape.t }
    requires few { matrix.now.shape.q ^ matrix.now.shape.t ≤ 1024 }
    ensures { OnOk result
        (out.new ≡ out.old ++ design_section step.now.factors (design_of matrix.now)) }
{
    let runs = list_runs(alloc, matrix)?;
    let values = default_values(alloc, runs.shape().q)?;
    put_columns(out, &step.factors, runs.shape().t)?;
    put_points(out, &runs, &values)
}

/// Appends the names of the columns.
fn put_columns(out: &mut Bytes, names: &Names, t: u8) -> Result<(), NoMemory>
    ensures { OnOk result (out.new ≡ out.old ++ columns_line t names.now) }
{
    put_title(out, t)?;
    for name in names.as_slice() {
        put_word(out, name.as_slice())?;
    }
    put(out, b"\n")
}

/// Appends what comes before the names of the factors.
fn put_title(out: &mut Bytes, t: u8) -> Result<(), NoMemory>
    ensures { OnOk result
        (out.new ≡ out.old ++ (if t == 0 then codes "points" else codes "points BLOCK")) }
{
    if t == 0 {
        put(out, b"points")
    } else {
        put(out, b"points BLOCK")
    }
}

/// Appends a blank and the word.
fn put_word(out: &mut Bytes, text: &[u8]) -> Result<(), NoMemory>
    ensures { OnOk result (out.new ≡ out.old ++ word text.now) }
{
    put(out, b" ")?;
    put(out, text)
}

/// Appends the lines of all runs.
fn put_points(out: &mut Bytes, runs: &Runs, values: &Items<Bytes>) -> Result<(), NoMemory>
    requires few { runs.now.shape.q ^ runs.now.shape.t ≤ 1024 }
    requires values { values.now ≡ default_values runs.now.shape.q }
    ensures { OnOk result
        (out.new
        ≡ out.old ++ flat_map (point_line runs.now) (range_with_len 0 (length runs.now.rows))) }
{
    for k in 0..runs.len() {
        put_point(out, runs, values, k)?;
    }
    Ok(())
}

/// Appends the line of the run at `k`.
fn put_point(out: &mut Bytes, runs: &Runs, values: &Items<Bytes>, k: usize) -> Result<(), NoMemory>
    requires there { k < length runs.now.rows }
    requires few { runs.now.shape.q ^ runs.now.shape.t ≤ 1024 }
    requires values { values.now ≡ default_values runs.now.shape.q }
    ensures { OnOk result (out.new ≡ out.old ++ point_line runs.now k) }
{
    put(out, b"  ")?;
    put_number(out, k as u128 + 1)?;
    put_block(out, runs, k)?;
    put_levels(out, runs.row(k), usize::from(runs.shape().s), values)?;
    put(out, b"\n")
}

/// Appends the number of the block of the run at `k`, where there are blocks.
fn put_block(out: &mut Bytes, runs: &Runs, k: usize) -> Result<(), NoMemory>
    requires there { k < length runs.now.rows }
    requires few { runs.now.shape.q ^ runs.now.shape.t ≤ 1024 }
    ensures { OnOk result (out.new ≡ out.old ++ block_word runs.now k) }
{
    if runs.shape().t == 0 {
        return Ok(());
    }
    put(out, b" ")?;
    put_number(out, u128::from(block_number(runs, k)))
}

/// Appends the values of the first `s` codes.
fn put_levels(out: &mut Bytes, x: &Vector, s: usize, values: &Items<Bytes>) -> Result<(), NoMemory>
    requires codes { IsVector (length values.now) (length x.now) x.now }
    requires long { s ≤ length x.now }
    ensures { OnOk result
        (out.new ≡ out.old ++ flat_map (level_word values.now) (take s x.now)) }
{
    for i in 0..s {
        put_word(out, values.get(usize::from(x.code(i))).as_slice())?;
    }
    Ok(())
}
