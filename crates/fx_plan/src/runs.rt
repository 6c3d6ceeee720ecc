ghost use Rattle.std.specs.Prelude.{◌≡◌, ◌<◌, ◌≤◌, ◌^◌, ◌==◌, ◌∷◌, ◌++◌, [], IfOk, OnOk};
ghost use Rattle.std.specs.Prelude.{if◌then◌else◌, length, map};
ghost use Rattle.std.specs.List.{range_with_len};
ghost use Rattle.fx_runs.specs.RunBlocks.{block_of, run_at};
ghost use Rattle.fx_derived.specs.Codes.{ArePlaces, derived_level};
ghost use Rattle.fx_outputs.specs.DerivedFactors.{free_places};
ghost use Rattle.fx_outputs.specs.BlockColumns.{column_name};
ghost use Rattle.fx_plan.specs.Columns.{column_names, column_places};
ghost use Rattle.fx_plan.specs.Coded.{block_fields, row_codes};
ghost use Rattle.fx_plan.specs.Products.{runs_table};
ghost use Rattle.fx_plan.specs.Tables.{block_field};

use crate::coded::CodedTable;
use crate::columns::{column_places, free_places, push, push_list, put_column_names};
use crate::layout::Layout;
use fx_base::{Bytes, NoMemory};
use fx_derived::level_at;
use fx_runs::{Runs, block_number};
use fx_statements::{Names, OutputSpec};
use itoa::Buffer;
use std::alloc::Global;

/// The runs as a table, with these values for the codes of each column.
pub(crate) fn runs_table(
    layout: &Layout<'_>,
    values: Vec<Vec<Bytes>>,
) -> Result<CodedTable, NoMemory>
    ensures { IfOk result (λ table. table ≡ runs_table layout.now.factors.now layout.now.runs.now
        layout.now.output.now (map (λ v. v.items) values.items)) }
{
    let derived = layout.output.derived.as_slice();
    let free = free_places(layout.alloc, layout.runs.shape().s, derived)?;
    let columns = column_places(layout.alloc, free.as_slice(), derived)?;
    let rows = coded_rows(layout, columns.as_slice())?;
    let names = head_names(layout, free.as_slice())?;
    let texts = all_texts(block_texts(layout)?, values)?;
    Ok(CodedTable::new(names, texts, rows))
}

/// The names of a plan's own columns.
fn head_names(layout: &Layout<'_>, free: &[u8]) -> Result<Names, NoMemory>
    requires { free.now ≡ free_places layout.now.runs.now.shape.s layout.now.output.now.derived }
    ensures { IfOk result (λ names. names ≡ (if layout.now.runs.now.shape.t == 0 then []
        else column_name layout.now.output.now.block_name ∷ [])
        ++ column_names layout.now.factors.now layout.now.output.now.derived) }
{
    let mut names = Names::new(layout.alloc);
    put_block_name(layout, &mut names)?;
    let derived = layout.output.derived.as_slice();
    put_column_names(layout.alloc, layout.factors, free, derived, &mut names)?;
    Ok(names)
}

/// Adds the name of the block column, where there are blocks.
fn put_block_name(layout: &Layout<'_>, names: &mut Names) -> Result<(), NoMemory>
    ensures { OnOk result (names.new ≡ names.old ++ (if layout.now.runs.now.shape.t == 0 then []
        else column_name layout.now.output.now.block_name ∷ [])) }
{
    if layout.runs.shape().t == 0 {
        return Ok(());
    }
    names.push(block_column(layout.alloc, layout.output)?)
}

/// The name of the block column.
fn block_column(alloc: Global, output: &OutputSpec) -> Result<Bytes, NoMemory>
    ensures { IfOk result (λ name. name ≡ column_name output.now.block_name) }
{
    if output.block_name.is_empty() {
        return Bytes::from_slice(alloc, b"BLOCK");
    }
    Bytes::from_slice(alloc, output.block_name.as_slice())
}

/// The codes of the runs in these columns, behind the numbers of their blocks.
fn coded_rows(layout: &Layout<'_>, columns: &[Bytes]) -> Result<Vec<Vec<u16>>, NoMemory>
    requires { columns.now ≡ column_places layout.now.runs.now.shape.s layout.now.output.now.derived }
    ensures { IfOk result (λ rows. map (λ r. r.items) rows.items
        ≡ map (row_codes layout.now.runs.now columns.now)
        (range_with_len 0 (length layout.now.runs.now.rows))) }
{
    let mut rows = Vec::new(layout.alloc);
    for k in 0..layout.runs.len() {
        push_row(&mut rows, run_codes(layout, columns, k)?)?;
    }
    Ok(rows)
}

fn push_row(rows: &mut Vec<Vec<u16>>, row: Vec<u16>) -> Result<(), NoMemory>
    ensures { OnOk result (map (λ r. r.items) rows.new.items
        ≡ map (λ r. r.items) rows.old.items ++ row.items ∷ []) }
{
    match rows.push(row) {
        Ok(()) => Ok(()),
        Err(_) => Err(NoMemory),
    }
}

/// The codes of the run at `k` in these columns, behind the number of its block where there are blocks.
fn run_codes(layout: &Layout<'_>, columns: &[Bytes], k: usize) -> Result<Vec<u16>, NoMemory>
    requires there { k < length layout.now.runs.now.rows }
    requires columns { columns.now
        ≡ column_places layout.now.runs.now.shape.s layout.now.output.now.derived }
    ensures { IfOk result (λ codes. codes.items ≡ row_codes layout.now.runs.now columns.now k) }
{
    // Its order, once read, is known to be one of the seven.
    let _known = layout.runs.shape();
    let mut codes = Vec::new(layout.alloc);
    put_block(&mut codes, layout, k)?;
    for i in 0..columns.len() {
        put_level(&mut codes, layout.runs, k, columns[i].as_slice())?;
    }
    Ok(codes)
}

/// Adds the code of the run at `k` in the column of the factors at these places.
fn put_level(codes: &mut Vec<u16>, runs: &Runs, k: usize, places: &[u8]) -> Result<(), NoMemory>
    requires there { k < length runs.now.rows }
    requires places { ArePlaces runs.now.shape.s places.now }
    requires levels { runs.now.shape.q ^ length places.now ≤ 64 }
    ensures { OnOk result (codes.new.items ≡ codes.old.items
        ++ derived_level runs.now.shape.q places.now (run_at runs.now k) ∷ []) }
{
    put(codes, level_at(runs, k, places) as u16)
}

/// Adds the number, from 0, of the block of the run at `k`, where there are blocks.
fn put_block(codes: &mut Vec<u16>, layout: &Layout<'_>, k: usize) -> Result<(), NoMemory>
    requires { k < length layout.now.runs.now.rows }
    ensures { OnOk result (codes.new.items ≡ codes.old.items
        ++ (if layout.now.runs.now.shape.t == 0 then [] else block_of layout.now.runs.now k ∷ [])) }
{
    if layout.runs.shape().t == 0 {
        return Ok(());
    }
    put(codes, block_number(layout.runs, k) - 1)
}

fn put(codes: &mut Vec<u16>, code: u16) -> Result<(), NoMemory>
    ensures { OnOk result (codes.new.items ≡ codes.old.items ++ code ∷ []) }
{
    match codes.push(code) {
        Ok(()) => Ok(()),
        Err(_) => Err(NoMemory),
    }
}

/// The fields of the blocks, as those of a column, where there are blocks.
fn block_texts(layout: &Layout<'_>) -> Result<Vec<Vec<Bytes>>, NoMemory>
    ensures { IfOk result (λ texts. map (λ v. v.items) texts.items
        ≡ (if layout.now.runs.now.shape.t == 0 then []
        else block_fields layout.now.output.now.block_values
        (layout.now.runs.now.shape.q ^ layout.now.runs.now.shape.t) ∷ [])) }
{
    let shape = layout.runs.shape();
    let mut texts = Vec::new(layout.alloc);
    if shape.t == 0 {
        return Ok(texts);
    }
    let count = u32::from(shape.q).pow(u32::from(shape.t));
    push_list(&mut texts, block_fields(layout, count)?)?;
    Ok(texts)
}

/// The field of each of this many blocks.
fn block_fields(layout: &Layout<'_>, count: u32) -> Result<Vec<Bytes>, NoMemory>
    requires { count ≡ layout.now.runs.now.shape.q ^ layout.now.runs.now.shape.t }
    ensures { IfOk result (λ fields. fields.items
        ≡ block_fields layout.now.output.now.block_values count) }
{
    let mut fields = Vec::new(layout.alloc);
    for z in 0..count {
        put_field(layout, &mut fields, z)?;
    }
    Ok(fields)
}

/// Adds the field of the block of this number, counted from 0.
fn put_field(layout: &Layout<'_>, fields: &mut Vec<Bytes>, z: u32) -> Result<(), NoMemory>
    requires { z < layout.now.runs.now.shape.q ^ layout.now.runs.now.shape.t }
    ensures { OnOk result (fields.new.items
        ≡ fields.old.items ++ block_field layout.now.output.now.block_values z ∷ []) }
{
    let values = &layout.output.block_values;
    if values.is_empty() {
        push(layout.alloc, fields, Buffer::new().format(z + 1).as_bytes())
    } else {
        push(layout.alloc, fields, values.get(z as usize).as_slice())
    }
}

/// The texts of all columns.
fn all_texts(blocks: Vec<Vec<Bytes>>, values: Vec<Vec<Bytes>>) -> Result<Vec<Vec<Bytes>>, NoMemory>
    ensures { IfOk result (λ texts. map (λ v. v.items) texts.items
        ≡ map (λ v. v.items) blocks.items ++ map (λ v. v.items) values.items) }
{
    let mut texts = blocks;
    let mut values = values;
    match texts.append(&mut values) {
        Ok(()) => Ok(texts),
        Err(_) => Err(NoMemory),
    }
}
