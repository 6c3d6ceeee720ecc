ghost use Rattle.std.specs.Prelude.{◌≡◌, ◌<◌, ◌++◌, ◌∷◌, [], IfOk, OnOk, length, map, slice_index_or};
ghost use Rattle.fx_derived.specs.Tables.{crossed};

use crate::table::Table;
use crate::texts::Texts;
use fx_base::{Bytes, Items, NoMemory};
use std::alloc::Global;

/// The columns of `rows` and then those of `named`, and each row of the one with each of the other. The
/// named row changes fastest where `inner` is set, and slowest where it is not.
pub fn cross(alloc: Global, rows: &Table, named: &Table, inner: bool) -> Result<Table, NoMemory>
    ensures { IfOk result (λ table. table ≡ crossed inner rows.now named.now) }
{
    let mut table = Table::new(alloc, joined_names(alloc, rows.names(), named.names())?);
    push_pairs(alloc, &mut table, rows, named, inner)?;
    Ok(table)
}

/// The names of two tables.
fn joined_names(
    alloc: Global,
    first: &Items<Bytes>,
    second: &Items<Bytes>,
) -> Result<Items<Bytes>, NoMemory>
    ensures { IfOk result (λ names. names ≡ first.now ++ second.now) }
{
    let mut names = Items::new(alloc);
    for name in first.as_slice() {
        names.push(Bytes::from_slice(alloc, name.as_slice())?)?;
    }
    for other in second.as_slice() {
        names.push(Bytes::from_slice(alloc, other.as_slice())?)?;
    }
    Ok(names)
}

/// Adds each row with each named one to a table of their columns that has no rows.
fn push_pairs(
    alloc: Global,
    table: &mut Table,
    rows: &Table,
    named: &Table,
    inner: bool,
) -> Result<(), NoMemory>
    requires { table.old ≡ record { names = rows.now.names ++ named.now.names; rows = [] } }
    ensures { OnOk result (table.new ≡ crossed inner rows.now named.now) }
{
    let mut row = Texts::new(alloc);
    if inner {
        for i in 0..rows.len() {
            push_with_each(table, rows, i, named, &mut row)?;
        }
        Ok(())
    } else {
        for j in 0..named.len() {
            push_each_with(table, rows, named, j, &mut row)?;
        }
        Ok(())
    }
}

/// Adds the row at `i` with each named one.
fn push_with_each(
    table: &mut Table,
    rows: &Table,
    i: usize,
    named: &Table,
    row: &mut Texts,
) -> Result<(), NoMemory>
    requires there { i < length rows.now.rows }
    requires columns { table.old.names ≡ rows.now.names ++ named.now.names }
    ensures { OnOk result (table.new ≡ record table.old {
      rows = table.old.rows
          ++ map (λ y. slice_index_or rows.now.rows i [] ++ y) named.now.rows;
    }) }
{
    for j in 0..named.len() {
        push_pair(table, rows, i, named, j, row)?;
    }
    Ok(())
}

/// Adds each row with the named one at `j`.
fn push_each_with(
    table: &mut Table,
    rows: &Table,
    named: &Table,
    j: usize,
    row: &mut Texts,
) -> Result<(), NoMemory>
    requires there { j < length named.now.rows }
    requires columns { table.old.names ≡ rows.now.names ++ named.now.names }
    ensures { OnOk result (table.new ≡ record table.old {
      rows = table.old.rows
          ++ map (λ x. x ++ slice_index_or named.now.rows j []) rows.now.rows;
    }) }
{
    for i in 0..rows.len() {
        push_pair(table, rows, i, named, j, row)?;
    }
    Ok(())
}

/// Adds the row at `i` with the named one at `j`, put together in `row`.
fn push_pair(
    table: &mut Table,
    rows: &Table,
    i: usize,
    named: &Table,
    j: usize,
    row: &mut Texts,
) -> Result<(), NoMemory>
    requires row { i < length rows.now.rows }
    requires named { j < length named.now.rows }
    requires columns { table.old.names ≡ rows.now.names ++ named.now.names }
    ensures { OnOk result (table.new ≡ record table.old {
      rows = table.old.rows
          ++ (slice_index_or rows.now.rows i [] ++ slice_index_or named.now.rows j []) ∷ [];
    }) }
{
    row.clear();
    row.append(&rows.row(i))?;
    row.append(&named.row(j))?;
    table.push(row)
}
