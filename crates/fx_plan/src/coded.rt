ghost use Rattle.std.specs.Prelude.{◌≡◌, ◌<◌, [], length, map, slice_index, slice_index_or};
ghost use Rattle.fx_plan.specs.Tables.{coded_row};

use fx_base::{Bytes, Items};
use fx_statements::Names;
use std::marker::Model;

/// A table that holds each text once: of each column the texts that stand in it, and of each row,
/// for each column, the number of its text, from 0. So a long text is not repeated from row to row.
/// Clauses see the table of the texts.
#[derive(Drop)]
pub(crate) struct CodedTable {
    names: Names,
    /// The texts of each column.
    texts: Vec<Vec<Bytes>>,
    rows: Vec<Vec<u16>>,
}

impl Model for CodedTable {
    ghost use Rattle.std.specs.Prelude.{map};
    ghost use Rattle.fx_derived.specs.Tables.{TableView};
    ghost use Rattle.fx_plan.specs.Tables.{coded_row};

    ghost Value = { TableView };

    ghost view = { λ t. record {
      names = t.names;
      rows = map (λ codes. coded_row (map (λ v. v.items) t.texts.items) codes.items) t.rows.items;
    } };
}

impl CodedTable {
    /// The table of rows of such numbers.
    pub(crate) fn new(names: Names, texts: Vec<Vec<Bytes>>, rows: Vec<Vec<u16>>) -> CodedTable
        ensures { result ≡ record {
          names = names;
          rows = map (λ codes. coded_row (map (λ v. v.items) texts.items) codes.items) rows.items;
        } }
    {
        CodedTable { names, texts, rows }
    }

    pub(crate) fn names(&self) -> &Items<Bytes>
        ensures { result.now ≡ self.now.names }
    {
        &self.names
    }

    /// How many rows there are.
    pub(crate) fn len(&self) -> usize
        ensures { result ≡ length self.now.rows }
    {
        self.rows.len()
    }

    /// What the longest texts of all columns have together, in bytes: no row has more.
    pub(crate) fn widest(&self) -> usize {
        let mut sum: usize = 0;
        for texts in self.texts.as_slice() {
            sum = sum.saturating_add(longest(texts));
        }
        sum
    }

    /// The row at `i`, counted from 0.
    pub(crate) fn row(&self, i: usize) -> CodedRow<'_>
        requires { i < length self.now.rows }
        ensures { result ≡ slice_index_or self.now.rows i [] }
    {
        CodedRow {
            texts: self.texts.as_slice(),
            codes: self.rows[i].as_slice(),
        }
    }
}

/// The length of the longest of some texts.
fn longest(texts: &[Bytes]) -> usize {
    let mut most = 0;
    for text in texts {
        most = most.max(text.len());
    }
    most
}

/// A row of such a table, lent. Clauses see its texts.
#[derive(Drop)]
pub(crate) struct CodedRow<'a> {
    texts: &'a [Vec<Bytes>],
    codes: &'a [u16],
}

impl<'a> Model for CodedRow<'a> {
    ghost use Rattle.std.specs.Prelude.{List, ℕ, map};
    ghost use Rattle.fx_plan.specs.Tables.{coded_row};

    ghost Value = { List (List ℕ) };

    ghost view = { λ r. coded_row (map (λ v. v.items) r.texts.now) r.codes.now };
}

impl<'a> CodedRow<'a> {
    /// How many texts there are.
    pub(crate) fn len(&self) -> usize
        ensures { result ≡ length self.now }
    {
        self.codes.len()
    }

    /// The text in a column, counted from 0.
    pub(crate) fn get(&self, column: usize) -> &'a [u8]
        requires { column < length self.now }
        ensures { result.now ≡ slice_index_or self.now column [] }
    {
        text_at(self.texts, column, code_at(self.codes, column))
    }
}

fn code_at(codes: &[u16], column: usize) -> u16
    requires { column < length codes.now }
    ensures { result ≡ slice_index codes.now column }
{
    codes[column]
}

/// The text of a number in a column. A number that has no text stands for the empty one.
fn text_at(texts: &[Vec<Bytes>], column: usize, code: u16) -> &[u8]
    ensures { result.now
        ≡ slice_index_or (slice_index_or (map (λ v. v.items) texts.now) column []) code [] }
{
    match texts.get(column) {
        Some(texts) => match texts.get(usize::from(code)) {
            Some(text) => text.as_slice(),
            None => &[],
        },
        None => &[],
    }
}
