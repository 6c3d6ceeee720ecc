ghost use Rattle.std.specs.Prelude.{◌≡◌};
ghost use Rattle.fx_language.specs.Shapes.{derivative, fault_code};
ghost use Rattle.fx_language.specs.Continuations.{model_left, shape_left};

use crate::code;
use crate::effects::{EffectList, EffectPlace};
use crate::state::{State, only};
use crate::symbol::Symbol;

/// A place in a MODEL statement, outside of its lists of effects.
#[derive(Clone, Copy)]
pub enum ModelPlace {
    /// After MODEL: ESTIMATE or RESOLUTION.
    Word,
    /// After the list of ESTIMATE: NONNEGLIGIBLE, `/` or `;`.
    Nonnegligible,
    /// After RESOLUTION: `=`.
    Equals,
    /// After that: a number or MAXIMUM.
    Resolution,
    /// After all but the option: `/` or `;`.
    Slash,
    /// After `/`: MINABS.
    Option,
    /// After MINABS: `;`.
    End,
}

impl ModelPlace {
    /// The place after the symbol, or None where the grammar refuses it.
    pub(crate) fn next(self, symbol: Symbol) -> Option<State>
        ensures { derivative symbol (model_left self) ≡ shape_left result }
    {
        match self {
            Self::Word => match symbol {
                Symbol::Estimate => Some(State::Effects(EffectList::Estimate, EffectPlace::Equals)),
                Symbol::Resolution => Some(State::Model(Self::Equals)),
                _ => None,
            },
            Self::Nonnegligible => match symbol {
                Symbol::Nonnegligible => Some(State::Effects(
                    EffectList::Nonnegligible,
                    EffectPlace::Equals,
                )),
                _ => option_or_end(symbol),
            },
            Self::Equals => only(Symbol::Equals, symbol, State::Model(Self::Resolution)),
            Self::Resolution => match symbol {
                Symbol::Whole | Symbol::Maximum => Some(State::Model(Self::Slash)),
                _ => None,
            },
            Self::Slash => option_or_end(symbol),
            Self::Option => only(Symbol::Minabs, symbol, State::Model(Self::End)),
            Self::End => only(Symbol::Semicolon, symbol, State::Step),
        }
    }

    /// The code that the grammar names for the symbol here.
    pub(crate) fn named_code(self, symbol: Symbol) -> Option<u8>
        ensures { result ≡ fault_code symbol (model_left self) }
    {
        match (self, symbol) {
            (Self::End, Symbol::Open) => Some(code::NOT_IN_PROFILE),
            _ => None,
        }
    }
}

/// The place after the `/` before the option, or after `;`.
fn option_or_end(symbol: Symbol) -> Option<State>
    ensures { derivative symbol (model_left ModelPlace.Slash) ≡ shape_left result }
{
    match symbol {
        Symbol::Slash => Some(State::Model(ModelPlace::Option)),
        Symbol::Semicolon => Some(State::Step),
        _ => None,
    }
}
