ghost use Rattle.std.specs.Prelude.{◌≡◌};
ghost use Rattle.fx_language.specs.SymbolSets.{empty, has, including};

use crate::symbol::Symbol;

/// A set of symbols, a bit for each.
#[derive(Clone, Copy)]
pub struct SymbolSet {
    pub bits: u64,
}

impl SymbolSet {
    pub fn empty() -> SymbolSet
        ensures { result ≡ empty }
    {
        SymbolSet { bits: 0 }
    }

    pub fn has(self, s: Symbol) -> bool
        ensures { result ≡ has self s }
    {
        self.bits >> s.index() & 1 == 1
    }

    /// The set with this symbol.
    pub fn with(self, s: Symbol) -> SymbolSet
        ensures { result ≡ including s self }
    {
        SymbolSet {
            bits: self.bits | 1 << s.index(),
        }
    }
}
