ghost use Rattle.std.specs.Prelude.{◌≡◌};
ghost use Rattle.fx_language.specs.Shapes.{derivative, fault_code};
ghost use Rattle.fx_language.specs.Continuations.{proc_left, shape_left};

use crate::code;
use crate::state::{State, if_word, only};
use crate::symbol::Symbol;

/// A place in a PROC statement.
#[derive(Clone, Copy)]
pub enum ProcPlace {
    /// After PROC: FACTEX.
    Procedure,
    /// After FACTEX or an option: NODES or `;`.
    Options,
    /// After NODES: `=`.
    Equals,
    /// After that: a number.
    Nodes,
}

impl ProcPlace {
    /// The place after the symbol, or None where the grammar refuses it.
    pub(crate) fn next(self, symbol: Symbol) -> Option<State>
        ensures { derivative symbol (proc_left self) ≡ shape_left result }
    {
        match self {
            Self::Procedure => only(Symbol::Factex, symbol, State::Proc(Self::Options)),
            Self::Options => match symbol {
                Symbol::Nodes => Some(State::Proc(Self::Equals)),
                Symbol::Semicolon => Some(State::Step),
                _ => None,
            },
            Self::Equals => only(Symbol::Equals, symbol, State::Proc(Self::Nodes)),
            Self::Nodes => only(Symbol::Whole, symbol, State::Proc(Self::Options)),
        }
    }

    /// The code that the grammar names for the symbol here.
    pub(crate) fn named_code(self, symbol: Symbol) -> Option<u8>
        ensures { result ≡ fault_code symbol (proc_left self) }
    {
        match symbol {
            Symbol::Time | Symbol::Nocheck | Symbol::Namelen => Some(code::NOT_IN_PROFILE),
            _ => match self {
                Self::Procedure => if_word(symbol, code::UNKNOWN_STATEMENT),
                _ => None,
            },
        }
    }
}
