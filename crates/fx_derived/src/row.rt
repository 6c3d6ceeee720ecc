ghost use Rattle.std.specs.Prelude.{◌≡◌, ◌<◌, ◌∷◌, length};
ghost use Rattle.fx_derived.specs.Texts.{ArePacked, packed, unpacked};

use crate::packing::unpack_first;
use std::marker::Model;

/// Texts in order, lent. Clauses see the list of the texts.
#[derive(Drop)]
pub struct Row<'a> {
    bytes: &'a [u8],
    len: usize,
}

impl<'a> Model for Row<'a> {
    ghost use Rattle.std.specs.Prelude.{List, ℕ};
    ghost use Rattle.fx_derived.specs.Texts.{ArePacked, unpacked};

    ghost Value = { List (List ℕ) };

    ghost view = { λ r. unpacked r.len r.bytes.now };

    ghost invariant = { λ r. ArePacked r.len r.bytes.now };
}

impl<'a> Row<'a> {
    /// The `len` texts that are packed in these bytes.
    pub(crate) fn new(bytes: &'a [u8], len: usize) -> Row<'a>
        requires { ArePacked len bytes.now }
        ensures { result ≡ unpacked len bytes.now }
    {
        Row { bytes, len }
    }

    /// How many texts there are.
    pub fn len(&self) -> usize
        ensures { result ≡ length self.now }
    {
        self.len
    }

    /// Takes the first text off the row.
    pub fn pop_front(&mut self) -> &'a [u8]
        requires { 0 < length self.old }
        ensures { self.old ≡ result.now ∷ self.new }
    {
        let (text, others) = unpack_first(self.bytes);
        self.bytes = others;
        self.len -= 1;
        text
    }

    /// The texts as they are packed.
    pub(crate) fn as_bytes(&self) -> &'a [u8]
        ensures { result.now ≡ packed self.now }
    {
        self.bytes
    }
}
