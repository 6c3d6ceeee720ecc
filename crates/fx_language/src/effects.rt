ghost use Rattle.std.specs.Prelude.{◌≡◌};
ghost use Rattle.fx_language.specs.Shapes.{derivative};
ghost use Rattle.fx_language.specs.Continuations.{effects_left, list_left, shape_left, shape_at};

use crate::model::ModelPlace;
use crate::state::{State, any_word, only};
use crate::symbol::Symbol;

/// A list of effects in a MODEL statement, by the word before it.
#[derive(Clone, Copy)]
pub enum EffectList {
    Estimate,
    Nonnegligible,
}

/// A place in a list of effects.
#[derive(Clone, Copy)]
pub enum EffectPlace {
    /// After the word before the list: `=`.
    Equals,
    /// After that: `(`.
    Open,
    /// After `(`: the first name.
    First,
    /// After the first name of an effect: `-`, `*`, `|`, `@`, another effect or `)`.
    Name,
    /// After `-`: the last name of the range.
    Range,
    /// After `*` or `|`: a name.
    Factor,
    /// After that: `*`, `|`, `@`, another effect or `)`.
    Product,
    /// After `@`: a number.
    Bound,
    /// After a range or a bound: another effect or `)`.
    More,
}

impl EffectPlace {
    /// The place after the symbol, or None where the grammar refuses it.
    pub(crate) fn next(self, list: EffectList, symbol: Symbol) -> Option<State>
        ensures { derivative symbol (effects_left list self) ≡ shape_left result }
    {
        match self {
            Self::Equals => only(Symbol::Equals, symbol, State::Effects(list, Self::Open)),
            Self::Open => only(Symbol::Open, symbol, State::Effects(list, Self::First)),
            Self::First => any_word(symbol, State::Effects(list, Self::Name)),
            Self::Name => behind_name(list, symbol),
            Self::Range => any_word(symbol, State::Effects(list, Self::More)),
            Self::Factor => any_word(symbol, State::Effects(list, Self::Product)),
            Self::Product => behind_product(list, symbol),
            Self::Bound => only(Symbol::Whole, symbol, State::Effects(list, Self::More)),
            Self::More => behind_effect(list, symbol),
        }
    }
}

/// The place after a symbol that follows the first name of an effect.
fn behind_name(list: EffectList, symbol: Symbol) -> Option<State>
    ensures { derivative symbol (effects_left list EffectPlace.Name) ≡ shape_left result }
{
    match symbol {
        Symbol::Minus => Some(State::Effects(list, EffectPlace::Range)),
        _ => behind_product(list, symbol),
    }
}

/// The place after a symbol that follows a name of a product.
fn behind_product(list: EffectList, symbol: Symbol) -> Option<State>
    ensures { derivative symbol (effects_left list EffectPlace.Product) ≡ shape_left result }
{
    match symbol {
        Symbol::Star | Symbol::Bar => Some(State::Effects(list, EffectPlace::Factor)),
        Symbol::At => Some(State::Effects(list, EffectPlace::Bound)),
        _ => behind_effect(list, symbol),
    }
}

/// The place after a symbol that follows a whole effect.
fn behind_effect(list: EffectList, symbol: Symbol) -> Option<State>
    ensures { derivative symbol (effects_left list EffectPlace.More) ≡ shape_left result }
{
    match symbol {
        Symbol::Close => Some(list.behind()),
        _ => any_word(symbol, State::Effects(list, EffectPlace::Name)),
    }
}

impl EffectList {
    /// The place after the list.
    fn behind(self) -> State
        ensures { shape_at result ≡ list_left self }
    {
        match self {
            EffectList::Estimate => State::Model(ModelPlace::Nonnegligible),
            EffectList::Nonnegligible => State::Model(ModelPlace::Slash),
        }
    }
}
