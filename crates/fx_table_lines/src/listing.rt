ghost use Rattle.std.specs.Prelude.{◌≡◌, ◌++◌, length, OnOk};
ghost use Rattle.fx_table_book.specs.Tables.{IsBase};
ghost use Rattle.fx_table_lines.specs.Listing.{design_text, ending_text, entries_text, line_text};

use crate::figures::put_figures;
use crate::head::put_factors;
use crate::line::TableLine;
use crate::rules::put_rules;
use fx_base::{Bytes, NoMemory, put, put_number};
use fx_table_book::{Base, Order};
use fx_vectors::{Matrix, Pattern};
use std::alloc::Global;

/// Appends a line, and its rules where it has a design.
///
/// # Errors
///
/// `NoMemory`; `out` then holds a prefix of the text after what it held.
pub fn put_line(
    alloc: Global,
    out: &mut Bytes,
    base: Base,
    order: Order,
    line: &TableLine,
) -> Result<(), NoMemory>
    requires { IsBase base }
    ensures { OnOk result (out.new ≡ out.old ++ line_text base order line.now) }
{
    put_factors(out, base)?;
    put_ending(alloc, out, base, order, line)
}

/// Appends what a line has after its factors.
fn put_ending(
    alloc: Global,
    out: &mut Bytes,
    base: Base,
    order: Order,
    line: &TableLine,
) -> Result<(), NoMemory>
    requires { IsBase base }
    ensures { OnOk result (out.new ≡ out.old ++ ending_text base order line.now) }
{
    match line {
        TableLine::Least {
            rows: _,
            rules,
            key,
            book,
        } => {
            put_entries(out, book.entries.len())?;
            put_design(alloc, out, base, order, key, rules)
        }
        TableLine::Nothing { book } => {
            put_entries(out, book.entries.len())?;
            put(out, b" none\n")
        }
        TableLine::Open { entries, rows: _ } => {
            put(out, b"open after ")?;
            put_number(out, u128::from(*entries))?;
            put(out, b" entries\n")
        }
    }
}

/// Appends the number of entries of a book.
fn put_entries(out: &mut Bytes, count: usize) -> Result<(), NoMemory>
    ensures { OnOk result (out.new ≡ out.old ++ entries_text count) }
{
    put(out, b"entries ")?;
    put_number(out, count as u128)
}

/// Appends the key and the rules of a design.
fn put_design(
    alloc: Global,
    out: &mut Bytes,
    base: Base,
    order: Order,
    key: &Pattern,
    rules: &Matrix,
) -> Result<(), NoMemory>
    requires { IsBase base }
    ensures { OnOk result (out.new ≡ out.old ++ design_text base order key.now rules.now) }
{
    put_figures(alloc, out, base, order, key)?;
    put(out, b"\n")?;
    put_rules(alloc, out, rules)
}
