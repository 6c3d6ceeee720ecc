ghost use Rattle.std.specs.Prelude.{◌≡◌, ◌<◌, ◌≤◌, ◌∷◌, [], All, IfOk, length, map, slice_index_or};
ghost use Rattle.fx_derived.specs.Tables.{TableView};
ghost use Rattle.fx_plan.specs.Parts.{side_by_side};
ghost use Rattle.fx_plan.specs.Products.{picked, repeats};

use crate::coded::{CodedRow, CodedTable};
use fx_base::{Bytes, Items, NoMemory};
use std::alloc::Global;
use std::marker::Model;

/// How many rows are held as text at a time, at most.
const ROWS: usize = 64;

/// How many bytes these rows should have together.
const TEXT: usize = 1 << 20;

/// Rows of a table, by their numbers from 0. Clauses see the table of these rows.
#[derive(Drop)]
pub(crate) struct Part {
    table: CodedTable,
    rows: Vec<u32>,
}

impl Model for Part {
    ghost use Rattle.std.specs.Prelude.{◌<◌, All, length};
    ghost use Rattle.fx_derived.specs.Tables.{TableView};
    ghost use Rattle.fx_plan.specs.Products.{picked};

    ghost Value = { TableView };

    ghost view = { λ p. picked p.rows.items p.table };

    ghost invariant = { λ p. All (λ r. r < length p.table.rows) p.rows.items };
}

impl Part {
    pub(crate) fn names(&self) -> &Items<Bytes>
        ensures { result.now ≡ self.now.names }
    {
        self.table.names()
    }

    /// The row at `i`, counted from 0.
    pub(crate) fn row(&self, i: usize) -> CodedRow<'_>
        requires { i < length self.now.rows }
        ensures { result ≡ slice_index_or self.now.rows i [] }
    {
        self.table.row(self.rows[i] as usize)
    }

    /// Its rows of these numbers.
    fn picked(self, alloc: Global, by: &[u32]) -> Result<Part, NoMemory>
        requires { All (λ i. i < length self.rows) by.now }
        ensures { IfOk result (λ part. part ≡ picked by.now self) }
    {
        let Part { table, rows } = self;
        let rows = chosen(alloc, rows.as_slice(), by)?;
        Ok(Part { table, rows })
    }
}

/// The numbers at these places.
fn chosen(alloc: Global, numbers: &[u32], by: &[u32]) -> Result<Vec<u32>, NoMemory>
    requires { All (λ i. i < length numbers.now) by.now }
    ensures { IfOk result (λ v. v.items ≡ map (λ i. slice_index_or numbers.now i 0) by.now) }
{
    let mut v = Vec::new(alloc);
    for i in by {
        if v.push(numbers[*i as usize]).is_err() {
            return Err(NoMemory);
        }
    }
    Ok(v)
}

/// The rows of a plan. They are put together one at a time, side by side of rows of smaller tables:
/// a plan is never held whole. Clauses see the whole table.
#[derive(Drop)]
pub struct Plan {
    len: usize,
    parts: Items<Part>,
}

impl Model for Plan {
    ghost use Rattle.std.specs.Prelude.{◌≡◌, All, length};
    ghost use Rattle.fx_derived.specs.Tables.{TableView};
    ghost use Rattle.fx_plan.specs.Parts.{side_by_side};

    ghost Value = { TableView };

    ghost view = { λ p. side_by_side p.len p.parts };

    ghost invariant = { λ p. All (λ (t : TableView). length t.rows ≡ p.len) p.parts };
}

impl Plan {
    /// The rows of a table in this order, by their numbers from 0.
    pub(crate) fn of(alloc: Global, table: CodedTable, order: Vec<u32>) -> Result<Plan, NoMemory>
        requires { All (λ r. r < length table.rows) order.items }
        ensures { IfOk result (λ plan. plan ≡ picked order.items table) }
    {
        let len = order.len();
        let mut parts = Items::new(alloc);
        parts.push(Part { table, rows: order })?;
        Ok(Plan { len, parts })
    }

    /// How many rows there are.
    pub fn len(&self) -> usize
        ensures { result ≡ length self.now.rows }
    {
        self.len
    }

    /// How many rows to hold as text at a time, so that the text stays small: one where rows are long.
    pub fn rows_at_once(&self) -> usize
        ensures some { 1 ≤ result }
        ensures few { result ≤ 64 }
    {
        let mut widest: usize = 0;
        for part in self.parts.as_slice() {
            widest = widest.saturating_add(part.table.widest());
        }
        (TEXT / widest.max(1)).clamp(1, ROWS)
    }

    /// The parts, side by side.
    pub(crate) fn parts(&self) -> &[Part]
        ensures whole { self.now ≡ side_by_side (length self.now.rows) result.now }
        ensures long { All (λ (t : TableView). length t.rows ≡ length self.now.rows) result.now }
    {
        self.parts.as_slice()
    }

    /// The rows of these numbers, which count from 0.
    pub(crate) fn picked(self, alloc: Global, by: &[u32]) -> Result<Plan, NoMemory>
        requires { All (λ i. i < length self.rows) by.now }
        ensures { IfOk result (λ plan. plan ≡ picked by.now self) }
    {
        let mut parts = Items::new(alloc);
        for part in self.parts.into_vec() {
            parts.push(part.picked(alloc, by)?)?;
        }
        Ok(Plan {
            len: by.len(),
            parts,
        })
    }

    /// The columns of both plans, which have as many rows.
    pub(crate) fn beside(self, other: Plan) -> Result<Plan, NoMemory>
        requires { length other.rows ≡ length self.rows }
        ensures { IfOk result (λ plan. plan
            ≡ side_by_side (length self.rows) (self ∷ other ∷ [])) }
    {
        let Plan { len, mut parts } = self;
        parts.append(other.parts)?;
        Ok(Plan { len, parts })
    }
}

/// So many rows without columns: what a number of replications repeats by.
pub fn repeats(alloc: Global, n: u32) -> Plan
    ensures { result ≡ repeats n }
{
    Plan {
        len: n as usize,
        parts: Items::new(alloc),
    }
}
