ghost use Rattle.std.specs.Prelude.{◌≡◌, ◌<◌, ◌∷◌, ◌++◌, [], length, slice_index_or, OnErr, OnOk};
ghost use Rattle.fx_derived.specs.Tables.{IsTable};

use crate::pieces::Pieces;
use crate::row::Row;
use crate::texts::Texts;
use fx_base::{Bytes, Items, NoMemory};
use std::alloc::Global;
use std::marker::Model;

/// A table of texts: the names of its columns, and rows with a text for each column. Its texts are
/// in one buffer, so memory grows with their bytes: each row takes 8 bytes more, and each text of
/// fewer than 255 bytes one.
#[derive(Drop)]
pub struct Table {
    names: Items<Bytes>,
    /// The rows, each as its texts are packed.
    rows: Pieces,
}

impl Model for Table {
    ghost use Rattle.std.specs.Prelude.{length, map};
    ghost use Rattle.std.specs.List.{AllByRecursion};
    ghost use Rattle.fx_derived.specs.Tables.{TableView};
    ghost use Rattle.fx_derived.specs.Texts.{ArePacked, unpacked};

    ghost Value = { TableView };

    ghost view = { λ t. record { names = t.names; rows = map (unpacked (length t.names)) t.rows } };

    ghost invariant = { λ t. AllByRecursion (ArePacked (length t.names)) t.rows };
}

impl Table {
    /// A table without rows.
    pub fn new(alloc: Global, names: Items<Bytes>) -> Table
        ensures { result ≡ record { names = names; rows = [] } }
    {
        Table {
            names,
            rows: Pieces::new(alloc),
        }
    }

    pub fn names(&self) -> &Items<Bytes>
        ensures { result.now ≡ self.now.names }
    {
        &self.names
    }

    /// How many rows there are.
    pub fn len(&self) -> usize
        ensures count { result ≡ length self.now.rows }
        ensures valid { IsTable self.now }
    {
        self.rows.len()
    }

    /// The row at `i`, counted from 0.
    pub fn row(&self, i: usize) -> Row<'_>
        requires { i < length self.now.rows }
        ensures row { result ≡ slice_index_or self.now.rows i [] }
        ensures width { length result ≡ length self.now.names }
    {
        Row::new(self.rows.get(i), self.names.len())
    }

    /// Adds a row with a text for each column, or leaves the table as it is where memory ran out.
    pub fn push(&mut self, row: &Texts) -> Result<(), NoMemory>
        requires { length row.now ≡ length self.old.names }
        ensures ok { OnOk result
            (self.new ≡ record self.old { rows = self.old.rows ++ row.now ∷ [] }) }
        ensures err { OnErr result (self.new ≡ self.old) }
    {
        self.rows.push(row.as_row().as_bytes())?;
        Ok(())
    }
}
