ghost use Rattle.std.specs.Prelude.{◌≡◌, ◌∷◌, ◌++◌, [], length, OnErr, OnOk};

use crate::packing::{extend, pack};
use crate::row::Row;
use fx_base::NoMemory;
use std::alloc::Global;
use std::marker::Model;

/// Texts in order, packed in one buffer: a text of fewer than 255 bytes takes one byte more. Clauses
/// see the list of the texts.
#[derive(Drop)]
pub struct Texts {
    bytes: Vec<u8>,
    len: usize,
}

impl Model for Texts {
    ghost use Rattle.std.specs.Prelude.{List, ℕ};
    ghost use Rattle.fx_derived.specs.Texts.{ArePacked, unpacked};

    ghost Value = { List (List ℕ) };

    ghost view = { λ t. unpacked t.len t.bytes.items };

    ghost invariant = { λ t. ArePacked t.len t.bytes.items };
}

impl Texts {
    /// No texts. The buffer takes memory from `alloc` as it grows.
    pub fn new(alloc: Global) -> Texts
        ensures { result ≡ [] }
    {
        Texts {
            bytes: Vec::new(alloc),
            len: 0,
        }
    }

    /// How many texts there are.
    pub fn len(&self) -> usize
        ensures { result ≡ length self.now }
    {
        self.len
    }

    /// The texts, lent.
    pub fn as_row(&self) -> Row<'_>
        ensures { result ≡ self.now }
    {
        Row::new(self.bytes.as_slice(), self.len)
    }

    /// Adds a text at the end, or leaves the texts as they are where memory ran out.
    pub fn push(&mut self, text: &[u8]) -> Result<(), NoMemory>
        ensures ok { OnOk result (self.new ≡ self.old ++ text.now ∷ []) }
        ensures err { OnErr result (self.new ≡ self.old) }
    {
        pack(&mut self.bytes, text)?;
        // Each text takes a byte, so there are no more texts than bytes.
        let _bytes = self.bytes.len();
        self.len += 1;
        Ok(())
    }

    /// Adds the texts of a row at the end, or leaves the texts as they are where memory ran out.
    pub fn append(&mut self, row: &Row) -> Result<(), NoMemory>
        ensures ok { OnOk result (self.new ≡ self.old ++ row.now) }
        ensures err { OnErr result (self.new ≡ self.old) }
    {
        extend(&mut self.bytes, row.as_bytes())?;
        let _bytes = self.bytes.len();
        self.len += row.len();
        Ok(())
    }

    /// Removes all texts, and keeps the room.
    pub fn clear(&mut self)
        ensures { self.new ≡ [] }
    {
        self.bytes.clear();
        self.len = 0;
    }
}
