ghost use Rattle.std.specs.Prelude.{◌≡◌};

use fx_base::Values;

/// A token as the grammar sees it. Keywords represent each of their spellings.
#[derive(Clone, Copy, PartialEq, Eq)]
pub enum Symbol {
    Proc,
    Factex,
    Nodes,
    Run,
    Quit,
    Factors,
    Nlev,
    Size,
    Design,
    Fraction,
    Nrunfacs,
    Minimum,
    Maximum,
    Model,
    Estimate,
    Nonnegligible,
    Resolution,
    Minabs,
    Blocks,
    Nblkfacs,
    Nblocks,
    Examine,
    Aliasing,
    Blocked,
    Confounding,
    Aberration,
    Output,
    Out,
    Pointrep,
    Designrep,
    Randomize,
    Novalran,
    Blockname,
    Nvals,
    Cvals,
    Foldover,
    Time,
    Nocheck,
    Namelen,
    Uniteffect,
    /// A word that is no keyword.
    Name,
    /// A number without a point.
    Whole,
    /// A number with a point.
    Decimal,
    /// A text in quotes.
    Quoted,
    /// `;`
    Semicolon,
    /// `=`
    Equals,
    /// `(`
    Open,
    /// `)`
    Close,
    /// `[`
    OpenBracket,
    /// `]`
    CloseBracket,
    /// `/`
    Slash,
    /// `*`
    Star,
    /// `|`
    Bar,
    /// `@`
    At,
    /// `-`
    Minus,
    /// The end of the text.
    End,
}

impl Symbol {
    ghost use Rattle.fx_language.specs.Symbols.{index, is, is_once, is_output_option, is_word};

    /// Whether they are the same.
    pub fn is(self, other: Symbol) -> bool
        ensures { result ≡ is self other }
    {
        self.index() == other.index()
    }

    /// Whether it is a word, a keyword or not.
    pub fn is_word(self) -> bool
        ensures { result ≡ is_word self }
    {
        self.index() <= Symbol::Name.index()
    }

    /// Whether it begins a statement that a step has at most once, before its RUN.
    pub fn is_once(self) -> bool
        ensures { result ≡ is_once self }
    {
        matches!(
            self,
            Symbol::Factors | Symbol::Size | Symbol::Model | Symbol::Blocks | Symbol::Foldover
        )
    }

    /// Whether it is an option wherever an option of OUTPUT is allowed.
    pub fn is_output_option(self) -> bool
        ensures { result ≡ is_output_option self }
    {
        matches!(
            self,
            Symbol::Pointrep
                | Symbol::Designrep
                | Symbol::Randomize
                | Symbol::Novalran
                | Symbol::Blockname
        )
    }

    /// Its place in the order of the symbols.
    pub fn index(self) -> u8
        ensures { result ≡ index self }
    {
        self as u8
    }
}

/// The symbols of a text in order, without its end.
pub type Symbols = Values<Symbol>;
