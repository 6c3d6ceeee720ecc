ghost use Rattle.std.specs.Prelude.{◌≡◌};
ghost use Rattle.fx_language.specs.Shapes.{derivative};
ghost use Rattle.fx_language.specs.Continuations.{factors_left, shape_left};

use crate::state::{State, any_word, only};
use crate::symbol::Symbol;

/// A place in a FACTORS statement.
#[derive(Clone, Copy)]
pub enum FactorsPlace {
    /// After FACTORS: a name.
    First,
    /// After a name: `-`, another name, `/` or `;`.
    Name,
    /// After `-`: the last name of the range.
    Range,
    /// After a range: a name, `/` or `;`.
    More,
    /// After `/`: NLEV.
    Option,
    /// After NLEV: `=`.
    Equals,
    /// After that: a number.
    Levels,
}

impl FactorsPlace {
    /// The place after the symbol, or None where the grammar refuses it.
    pub(crate) fn next(self, symbol: Symbol) -> Option<State>
        ensures { derivative symbol (factors_left self) ≡ shape_left result }
    {
        match self {
            Self::First => any_word(symbol, State::Factors(Self::Name)),
            Self::Name => behind_name(symbol),
            Self::Range => any_word(symbol, State::Factors(Self::More)),
            Self::More => behind_item(symbol),
            Self::Option => only(Symbol::Nlev, symbol, State::Factors(Self::Equals)),
            Self::Equals => only(Symbol::Equals, symbol, State::Factors(Self::Levels)),
            Self::Levels => only(Symbol::Whole, symbol, State::StatementEnd),
        }
    }
}

/// The place after a symbol that follows a name.
fn behind_name(symbol: Symbol) -> Option<State>
    ensures { derivative symbol (factors_left FactorsPlace.Name) ≡ shape_left result }
{
    match symbol {
        Symbol::Minus => Some(State::Factors(FactorsPlace::Range)),
        _ => behind_item(symbol),
    }
}

/// The place after a symbol that follows a name or a range.
fn behind_item(symbol: Symbol) -> Option<State>
    ensures { derivative symbol (factors_left FactorsPlace.More) ≡ shape_left result }
{
    match symbol {
        Symbol::Slash => Some(State::Factors(FactorsPlace::Option)),
        Symbol::Semicolon => Some(State::Step),
        _ => any_word(symbol, State::Factors(FactorsPlace::Name)),
    }
}
