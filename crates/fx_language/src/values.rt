ghost use Rattle.std.specs.Prelude.{◌≡◌};
ghost use Rattle.fx_language.specs.Shapes.{derivative};
ghost use Rattle.fx_language.specs.Continuations.{shape_left, values_left};

use crate::output::OutputPlace;
use crate::state::{State, only};
use crate::symbol::Symbol;

/// What a list of values has.
#[derive(Clone, Copy)]
pub enum ValueKind {
    Numbers,
    Texts,
}

/// A place in the values of a factor or of another column, after NVALS or CVALS.
#[derive(Clone, Copy)]
pub enum ValuesPlace {
    /// After that word: `=`.
    Equals(ValueKind),
    /// After `=`: `(`.
    Open(ValueKind),
    /// After `(`: a number, or `-` and one.
    Number,
    /// After `-`: a number.
    Unsigned,
    /// After a number: another one, or `)`.
    MoreNumbers,
    /// After `(`: a text.
    Text,
    /// After a text: another one, or `)`.
    MoreTexts,
}

impl ValuesPlace {
    /// The place after the symbol, or None where the grammar refuses it.
    pub(crate) fn next(self, symbol: Symbol) -> Option<State>
        ensures { derivative symbol (values_left self) ≡ shape_left result }
    {
        match self {
            Self::Equals(kind) => { only(Symbol::Equals, symbol, State::Values(Self::Open(kind))) }
            Self::Open(ValueKind::Numbers) => {
                only(Symbol::Open, symbol, State::Values(Self::Number))
            }
            Self::Open(ValueKind::Texts) => {
                only(Symbol::Open, symbol, State::Values(Self::Text))
            }
            Self::Number => signed(symbol),
            Self::Unsigned => unsigned(symbol),
            Self::MoreNumbers => number_or_end(symbol),
            Self::Text => only(Symbol::Quoted, symbol, State::Values(Self::MoreTexts)),
            Self::MoreTexts => text_or_end(symbol),
        }
    }
}

/// The place after the first symbol of another number, or after `)`.
fn number_or_end(symbol: Symbol) -> Option<State>
    ensures { derivative symbol (values_left ValuesPlace.MoreNumbers) ≡ shape_left result }
{
    match symbol {
        Symbol::Close => Some(State::Output(OutputPlace::Options)),
        _ => signed(symbol),
    }
}

/// The place after another text, or after `)`.
fn text_or_end(symbol: Symbol) -> Option<State>
    ensures { derivative symbol (values_left ValuesPlace.MoreTexts) ≡ shape_left result }
{
    match symbol {
        Symbol::Quoted => Some(State::Values(ValuesPlace::MoreTexts)),
        Symbol::Close => Some(State::Output(OutputPlace::Options)),
        _ => None,
    }
}

/// The place after the first symbol of a number.
fn signed(symbol: Symbol) -> Option<State>
    ensures { derivative symbol (values_left ValuesPlace.Number) ≡ shape_left result }
{
    match symbol {
        Symbol::Minus => Some(State::Values(ValuesPlace::Unsigned)),
        _ => unsigned(symbol),
    }
}

/// The place after a number without its sign.
fn unsigned(symbol: Symbol) -> Option<State>
    ensures { derivative symbol (values_left ValuesPlace.Unsigned) ≡ shape_left result }
{
    match symbol {
        Symbol::Whole | Symbol::Decimal => Some(State::Values(ValuesPlace::MoreNumbers)),
        _ => None,
    }
}
