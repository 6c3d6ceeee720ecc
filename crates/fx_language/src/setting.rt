ghost use Rattle.std.specs.Prelude.{◌≡◌};
ghost use Rattle.fx_language.specs.Shapes.{derivative};
ghost use Rattle.fx_language.specs.Continuations.{setting_left, shape_left, extreme_word};

use crate::state::{State, only};
use crate::symbol::Symbol;

/// A place in a SIZE or BLOCKS statement.
#[derive(Clone, Copy)]
pub enum SettingPlace {
    /// After SIZE: the word for what is set.
    SizeWord,
    /// After BLOCKS: the word for what is set.
    BlocksWord,
    /// After that word: `=`.
    Equals(Extreme),
    /// After `=`: a number, or the word for the extreme.
    Value(Extreme),
}

/// The value that may be asked for in place of a number.
#[derive(Clone, Copy)]
pub enum Extreme {
    Minimum,
    Maximum,
}

impl SettingPlace {
    /// The place after the symbol, or None where the grammar refuses it.
    pub(crate) fn next(self, symbol: Symbol) -> Option<State>
        ensures { derivative symbol (setting_left self) ≡ shape_left result }
    {
        match self {
            Self::SizeWord => match symbol {
                Symbol::Design | Symbol::Nrunfacs => {
                    Some(State::Setting(Self::Equals(Extreme::Minimum)))
                }
                Symbol::Fraction => Some(State::Setting(Self::Equals(Extreme::Maximum))),
                _ => None,
            },
            Self::BlocksWord => match symbol {
                Symbol::Nblkfacs | Symbol::Nblocks => {
                    Some(State::Setting(Self::Equals(Extreme::Maximum)))
                }
                Symbol::Size => Some(State::Setting(Self::Equals(Extreme::Minimum))),
                _ => None,
            },
            Self::Equals(extreme) => {
                only(Symbol::Equals, symbol, State::Setting(Self::Value(extreme)))
            }
            Self::Value(extreme) => match symbol {
                Symbol::Whole => Some(State::StatementEnd),
                _ => only(extreme.word(), symbol, State::StatementEnd),
            },
        }
    }
}

impl Extreme {
    fn word(self) -> Symbol
        ensures { result ≡ extreme_word self }
    {
        match self {
            Self::Minimum => Symbol::Minimum,
            Self::Maximum => Symbol::Maximum,
        }
    }
}
