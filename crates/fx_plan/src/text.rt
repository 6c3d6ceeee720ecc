ghost use Rattle.std.specs.Prelude.{List, ℕ, ◌≡◌, ◌<◌, ◌≤◌, ◌∷◌, ◌++◌, [], IfOk, OnOk, length, slice_index_or, slice_range};
ghost use Rattle.csv.specs.Records.{fields_of, partial_of};
ghost use Rattle.csv.specs.Writing.{default_writer, row_text};
ghost use Rattle.fx_plan.specs.Tables.{HasWritten, text_of, text_of_table};

use crate::assembled::Plan;
use crate::coded::CodedRow;
use csv::{ByteRecord, Writer, WriterBuilder};
use fx_base::{Bytes, Items, NoMemory, put};
use std::alloc::Global;

/// The bytes of a plan: comma-separated text with a head line.
///
/// # Errors
///
/// `NoMemory`.
pub fn table_text(alloc: Global, plan: &Plan) -> Result<Bytes, NoMemory>
    ensures { IfOk result (λ bytes. bytes ≡ text_of_table plan.now) }
{
    let mut text = head_text(alloc, plan)?;
    let rows = rows_text(alloc, plan, 0, plan.len())?;
    put(&mut text, rows.as_slice())?;
    Ok(text)
}

/// The head line of a plan.
///
/// # Errors
///
/// `NoMemory`.
pub fn head_text(alloc: Global, plan: &Plan) -> Result<Bytes, NoMemory>
    ensures { IfOk result (λ bytes. bytes ≡ row_text default_writer plan.now.names) }
{
    let mut row = ByteRecord::new(alloc);
    for part in plan.parts() {
        put_names(&mut row, part.names())?;
    }
    let mut writer = WriterBuilder::new().from_writer(Vec::new(alloc));
    write(&mut writer, &row)?;
    written(writer)
}

/// The lines of the rows of a plan from `from` on up to `to`, counted from 0.
///
/// # Errors
///
/// `NoMemory`.
pub fn rows_text(alloc: Global, plan: &Plan, from: usize, to: usize) -> Result<Bytes, NoMemory>
    requires ordered { from ≤ to }
    requires within { to ≤ length plan.now.rows }
    ensures { IfOk result (λ bytes. bytes ≡ text_of (slice_range plan.now.rows from to)) }
{
    let mut row = ByteRecord::new(alloc);
    let mut writer = WriterBuilder::new().from_writer(Vec::new(alloc));
    for i in from..to {
        row.clear();
        put_row(&mut row, plan, i)?;
        write(&mut writer, &row)?;
    }
    written(writer)
}

/// What has been written.
fn written(writer: Writer<Vec<u8>>) -> Result<Bytes, NoMemory>
    ensures { (text : List ℕ) → HasWritten writer text → IfOk result (λ bytes. bytes ≡ text) }
{
    match writer.into_inner() {
        Ok(text) => Ok(Bytes::from_vec(text)),
        Err(_) => Err(NoMemory),
    }
}

/// Writes a row.
fn write(writer: &mut Writer<Vec<u8>>, row: &ByteRecord) -> Result<(), NoMemory>
    ensures { (text : List ℕ) → HasWritten writer.old text
        → OnOk result (HasWritten writer.new (text ++ row_text default_writer (fields_of row.now))) }
{
    match writer.write_byte_record(row) {
        Ok(()) => Ok(()),
        Err(_) => Err(NoMemory),
    }
}

/// Adds a field to a row.
fn push(row: &mut ByteRecord, field: &[u8]) -> Result<(), NoMemory>
    requires { partial_of row.old ≡ [] }
    ensures fields { OnOk result (fields_of row.new ≡ fields_of row.old ++ field.now ∷ []) }
    ensures partial { OnOk result (partial_of row.new ≡ []) }
{
    if row.push_field(field).is_err() {
        return Err(NoMemory);
    }
    Ok(())
}

/// Adds the names to a row.
fn put_names(row: &mut ByteRecord, names: &Items<Bytes>) -> Result<(), NoMemory>
    requires { partial_of row.old ≡ [] }
    ensures fields { OnOk result (fields_of row.new ≡ fields_of row.old ++ names.now) }
    ensures partial { OnOk result (partial_of row.new ≡ []) }
{
    for name in names.as_slice() {
        push(row, name.as_slice())?;
    }
    Ok(())
}

/// Adds the texts of row `i` of a plan.
fn put_row(row: &mut ByteRecord, plan: &Plan, i: usize) -> Result<(), NoMemory>
    requires there { i < length plan.now.rows }
    requires partial { partial_of row.old ≡ [] }
    ensures fields { OnOk result
        (fields_of row.new ≡ fields_of row.old ++ slice_index_or plan.now.rows i []) }
    ensures partial { OnOk result (partial_of row.new ≡ []) }
{
    for part in plan.parts() {
        put_texts(row, &part.row(i))?;
    }
    Ok(())
}

/// Adds the texts of a row of a part.
fn put_texts(row: &mut ByteRecord, texts: &CodedRow<'_>) -> Result<(), NoMemory>
    requires { partial_of row.old ≡ [] }
    ensures fields { OnOk result (fields_of row.new ≡ fields_of row.old ++ texts.now) }
    ensures partial { OnOk result (partial_of row.new ≡ []) }
{
    for i in 0..texts.len() {
        push(row, texts.get(i))?;
    }
    Ok(())
}
