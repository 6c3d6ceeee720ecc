ghost use Rattle.std.specs.Prelude.{◌≡◌};
ghost use Rattle.fx_language.specs.Shapes.{derivative, fault_code};
ghost use Rattle.fx_language.specs.Continuations.{examine_left, shape_left};

use crate::code;
use crate::state::State;
use crate::symbol::Symbol;

/// A place in an EXAMINE statement. After it follows a section of the listing, or `;`.
#[derive(Clone, Copy)]
pub enum ExaminePlace {
    /// After EXAMINE or a section.
    Sections,
    /// After ALIASING or ABERRATION, where `(` has a code of its own.
    NoOpen,
}

impl ExaminePlace {
    /// The place after the symbol, or None where the grammar refuses it.
    pub(crate) fn next(self, symbol: Symbol) -> Option<State>
        ensures { derivative symbol (examine_left self) ≡ shape_left result }
    {
        match symbol {
            Symbol::Aliasing | Symbol::Aberration => Some(State::Examine(Self::NoOpen)),
            Symbol::Blocked | Symbol::Confounding | Symbol::Design => {
                Some(State::Examine(Self::Sections))
            }
            Symbol::Semicolon => Some(State::Step),
            _ => None,
        }
    }

    /// The code that the grammar names for the symbol here.
    pub(crate) fn named_code(self, symbol: Symbol) -> Option<u8>
        ensures { result ≡ fault_code symbol (examine_left self) }
    {
        match (self, symbol) {
            (Self::NoOpen, Symbol::Open) => Some(code::NOT_IN_PROFILE),
            _ => None,
        }
    }
}
