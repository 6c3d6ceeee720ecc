ghost use Rattle.std.specs.Prelude.{◌≡◌, ◌≤◌, IfOk, length};
ghost use Rattle.fx_table_book.specs.Tables.{IsBase, IsProper};
ghost use Rattle.fx_table_lines.specs.Lines.{Holds};
ghost use Rattle.fx_table_lines.specs.Walks.{AreMade};

use crate::seed::good_design;
use crate::walk::{Best, Rows, make_entries};
use fx_base::{Items, NoMemory};
use fx_table_book::{Base, Entry, Order, TableBook};
use fx_table_check::{Verdict, check_table, key_of_rows};
use fx_table_rules::rule_matrix;
use fx_vectors::{Matrix, Pattern};
use std::alloc::Global;

/// What a table has for one number of factors.
#[derive(Drop)]
pub enum TableLine {
    /// The rows of a canonical design, the rule matrix that a listing prints of it, and its key: no design of these
    /// dimensions has a less one. The book proves it, and was accepted.
    Least {
        rows: Rows,
        rules: Matrix,
        key: Pattern,
        book: TableBook,
    },
    /// There is no design of these dimensions. The book proves it, and was accepted.
    Nothing {
        book: TableBook,
    },
    /// Nothing is proved within so many entries. There may be rows of a good design.
    Open {
        entries: u32,
        rows: Option<Rows>,
    },
}

/// The line of designs of these dimensions, within a budget of at most 5,000,000 entries of its book. `before` has the
/// rows of the line with one factor less, or none: the search is quicker where they are good.
///
/// # Errors
///
/// `NoMemory`.
pub fn table_line(
    alloc: Global,
    base: Base,
    order: Order,
    entries: u32,
    before: &[u16],
) -> Result<TableLine, NoMemory>
    requires base { IsBase base }
    requires proper { IsProper base }
    requires few { entries ≤ 5000000 }
    ensures { IfOk result (Holds base order entries) }
{
    let mut best = good_design(alloc, base, order, before)?;
    let made = make_entries(alloc, base, &mut best, entries)?;
    let Best { rows, goal: _ } = best;
    match made {
        None => Ok(TableLine::Open { entries, rows }),
        Some(made) => match rows {
            None => nothing(alloc, base, order, made),
            Some(rows) => least(alloc, base, order, rows, made),
        },
    }
}

/// The line without a design, if its book is accepted.
fn nothing(
    alloc: Global,
    base: Base,
    order: Order,
    entries: Items<Entry>,
) -> Result<TableLine, NoMemory>
    requires base { IsBase base }
    requires proper { IsProper base }
    requires made { AreMade base 5000000 entries }
    ensures { IfOk result (Holds base order (length entries)) }
{
    let count = entries.len() as u32;
    let book = TableBook {
        base,
        order,
        key: None,
        entries,
    };
    match check_table(alloc, &book)? {
        Verdict::Accepted => Ok(TableLine::Nothing { book }),
        Verdict::Rejected {
            place: _,
            reason: _,
        } => Ok(TableLine::Open {
            entries: count,
            rows: None,
        }),
    }
}

/// The line of a design, if the rows are those of one and its book is accepted.
fn least(
    alloc: Global,
    base: Base,
    order: Order,
    rows: Rows,
    entries: Items<Entry>,
) -> Result<TableLine, NoMemory>
    requires base { IsBase base }
    requires proper { IsProper base }
    requires made { AreMade base 5000000 entries }
    ensures { IfOk result (Holds base order (length entries)) }
{
    let count = entries.len() as u32;
    let key = match key_of_rows(alloc, base, order, rows.as_slice())? {
        Some(key) => key,
        None => return Ok(TableLine::Open {
            entries: count,
            rows: None,
        }),
    };
    let rules = match rule_matrix(base, rows.as_slice()) {
        Some(rules) => rules,
        None => return Ok(TableLine::Open {
            entries: count,
            rows: Some(rows),
        }),
    };
    let book = TableBook {
        base,
        order,
        key: Some(Pattern::from_slice(alloc, key.as_slice())?),
        entries,
    };
    match check_table(alloc, &book)? {
        Verdict::Accepted => Ok(TableLine::Least {
            rows,
            rules,
            key,
            book,
        }),
        Verdict::Rejected {
            place: _,
            reason: _,
        } => Ok(TableLine::Open {
            entries: count,
            rows: Some(rows),
        }),
    }
}
