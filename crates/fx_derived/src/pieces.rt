ghost use Rattle.std.specs.Prelude.{◌≡◌, ◌<◌, ◌∷◌, ◌++◌, [], length, slice_index_or, OnErr, OnOk};
ghost use Rattle.csv.specs.Records.{prev};

use fx_base::NoMemory;
use std::alloc::Global;
use std::marker::Model;

/// Pieces of one buffer, one after another. Clauses see the list of them.
#[derive(Drop)]
pub(crate) struct Pieces {
    bytes: Vec<u8>,
    /// Where each piece ends.
    ends: Vec<usize>,
}

impl Model for Pieces {
    ghost use Rattle.std.specs.Prelude.{List, ℕ};
    ghost use Rattle.csv.specs.Records.{cut_from};
    ghost use Rattle.fx_derived.specs.Ends.{AreEnds};

    ghost Value = { List (List ℕ) };

    ghost view = { λ p. cut_from 0 p.ends.items p.bytes.items };

    ghost invariant = { λ p. AreEnds p.bytes.items p.ends.items };
}

impl Pieces {
    /// No pieces. The buffer takes memory from `alloc` as it grows.
    pub(crate) fn new(alloc: Global) -> Pieces
        ensures { result ≡ [] }
    {
        Pieces {
            bytes: Vec::new(alloc),
            ends: Vec::new(alloc),
        }
    }

    pub(crate) fn len(&self) -> usize
        ensures { result ≡ length self.now }
    {
        self.ends.len()
    }

    /// The piece at `i`, counted from 0.
    pub(crate) fn get(&self, i: usize) -> &[u8]
        requires { i < length self.now }
        ensures { result.now ≡ slice_index_or self.now i [] }
    {
        let start = start_of(&self.ends, i);
        &self.bytes.as_slice()[start..self.ends[i]]
    }

    /// Adds a piece at the end, or leaves the pieces as they are where memory ran out.
    pub(crate) fn push(&mut self, piece: &[u8]) -> Result<(), NoMemory>
        ensures ok { OnOk result (self.new ≡ self.old ++ piece.now ∷ []) }
        ensures err { OnErr result (self.new ≡ self.old) }
    {
        let before = self.bytes.len();
        if self.bytes.extend_from_slice(piece).is_err() {
            return Err(NoMemory);
        }
        let end = self.bytes.len();
        if self.ends.push(end).is_err() {
            self.bytes.truncate(before);
            return Err(NoMemory);
        }
        Ok(())
    }
}

/// Where the piece at `i` starts, of pieces with these ends.
fn start_of(ends: &Vec<usize>, i: usize) -> usize
    requires { i < length ends.now.items }
    ensures { result ≡ prev 0 ends.now.items i }
{
    if i == 0 {
        return 0;
    }
    ends[i - 1]
}
