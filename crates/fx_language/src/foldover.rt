ghost use Rattle.std.specs.Prelude.{◌≡◌};
ghost use Rattle.fx_language.specs.Shapes.{derivative};
ghost use Rattle.fx_language.specs.Continuations.{foldover_left, shape_left};

use crate::state::{State, any_word};
use crate::symbol::Symbol;

/// A place in a FOLDOVER statement.
#[derive(Clone, Copy)]
pub enum FoldoverPlace {
    /// After FOLDOVER, or after a range: a name or `;`.
    Items,
    /// After a name: `-`, another name or `;`.
    Name,
    /// After `-`: the last name of the range.
    Range,
}

impl FoldoverPlace {
    /// The place after the symbol, or None where the grammar refuses it.
    pub(crate) fn next(self, symbol: Symbol) -> Option<State>
        ensures { derivative symbol (foldover_left self) ≡ shape_left result }
    {
        match self {
            Self::Items => behind_item(symbol),
            Self::Name => behind_name(symbol),
            Self::Range => any_word(symbol, State::Foldover(Self::Items)),
        }
    }
}

/// The place after a symbol that follows a name.
fn behind_name(symbol: Symbol) -> Option<State>
    ensures { derivative symbol (foldover_left FoldoverPlace.Name) ≡ shape_left result }
{
    match symbol {
        Symbol::Minus => Some(State::Foldover(FoldoverPlace::Range)),
        _ => behind_item(symbol),
    }
}

/// The place after a symbol that follows FOLDOVER, a name or a range.
fn behind_item(symbol: Symbol) -> Option<State>
    ensures { derivative symbol (foldover_left FoldoverPlace.Items) ≡ shape_left result }
{
    match symbol {
        Symbol::Semicolon => Some(State::Step),
        _ => any_word(symbol, State::Foldover(FoldoverPlace::Name)),
    }
}
