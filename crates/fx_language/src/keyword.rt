ghost use Rattle.std.specs.Prelude.{◌≡◌, ◌++◌, map};
ghost use Rattle.fx_language.specs.Keywords.{keywords, listed_in, short_forms};
ghost use Rattle.fx_language.specs.Spellings.{spelling_row};

use crate::symbol::Symbol;

/// A spelling of a keyword, in small letters.
#[derive(Clone, Copy)]
pub struct Spelling {
    pub letters: &'static [u8],
    pub symbol: Symbol,
}

fn row(letters: &'static [u8], symbol: Symbol) -> Spelling
    ensures { spelling_row result ≡ (letters.now, symbol) }
{
    Spelling { letters, symbol }
}

/// Each keyword, and after them the short forms of some.
pub fn spellings() -> [Spelling; 48]
    ensures { map spelling_row result ≡ keywords ++ short_forms }
{
    [
        row(b"proc", Symbol::Proc),
        row(b"factex", Symbol::Factex),
        row(b"nodes", Symbol::Nodes),
        row(b"run", Symbol::Run),
        row(b"quit", Symbol::Quit),
        row(b"factors", Symbol::Factors),
        row(b"nlev", Symbol::Nlev),
        row(b"size", Symbol::Size),
        row(b"design", Symbol::Design),
        row(b"fraction", Symbol::Fraction),
        row(b"nrunfacs", Symbol::Nrunfacs),
        row(b"minimum", Symbol::Minimum),
        row(b"maximum", Symbol::Maximum),
        row(b"model", Symbol::Model),
        row(b"estimate", Symbol::Estimate),
        row(b"nonnegligible", Symbol::Nonnegligible),
        row(b"resolution", Symbol::Resolution),
        row(b"minabs", Symbol::Minabs),
        row(b"blocks", Symbol::Blocks),
        row(b"nblkfacs", Symbol::Nblkfacs),
        row(b"nblocks", Symbol::Nblocks),
        row(b"examine", Symbol::Examine),
        row(b"aliasing", Symbol::Aliasing),
        row(b"blocked", Symbol::Blocked),
        row(b"confounding", Symbol::Confounding),
        row(b"aberration", Symbol::Aberration),
        row(b"output", Symbol::Output),
        row(b"out", Symbol::Out),
        row(b"pointrep", Symbol::Pointrep),
        row(b"designrep", Symbol::Designrep),
        row(b"randomize", Symbol::Randomize),
        row(b"novalran", Symbol::Novalran),
        row(b"blockname", Symbol::Blockname),
        row(b"nvals", Symbol::Nvals),
        row(b"cvals", Symbol::Cvals),
        row(b"foldover", Symbol::Foldover),
        row(b"time", Symbol::Time),
        row(b"nocheck", Symbol::Nocheck),
        row(b"namelen", Symbol::Namelen),
        row(b"uniteffect", Symbol::Uniteffect),
        row(b"est", Symbol::Estimate),
        row(b"e", Symbol::Estimate),
        row(b"nonneg", Symbol::Nonnegligible),
        row(b"n", Symbol::Nonnegligible),
        row(b"res", Symbol::Resolution),
        row(b"r", Symbol::Resolution),
        row(b"max", Symbol::Maximum),
        row(b"min", Symbol::Minimum),
    ]
}

/// What a word represents among these spellings, without regard to case.
pub fn look_up(spellings: &[Spelling], word: &[u8]) -> Symbol
    ensures { result ≡ listed_in (map spelling_row spellings.now) word.now }
{
    for spelling in spellings {
        if word.eq_ignore_ascii_case(spelling.letters) {
            return spelling.symbol;
        }
    }
    Symbol::Name
}
