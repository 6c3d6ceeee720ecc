ghost use Rattle.std.specs.Prelude.{◌≡◌, ◌||◌, Some, None, if◌then◌else◌};
ghost use Rattle.fx_language.specs.Symbols.{is, is_word};
ghost use Rattle.fx_language.specs.Shapes.{derivative};
ghost use Rattle.fx_language.specs.Continuations.{output_left, shape_left};

use crate::state::{State, any_word, only};
use crate::symbol::Symbol;
use crate::values::{ValueKind, ValuesPlace};

/// A place in an OUTPUT statement, outside of its lists of values.
#[derive(Clone, Copy)]
pub enum OutputPlace {
    /// After OUTPUT: OUT.
    Out,
    /// After OUT: `=`.
    Equals,
    /// After that: the name of the data set.
    DataSet,
    /// After an option: another one, or `;`.
    Options,
    /// After POINTREP or DESIGNREP: `=`.
    ReplicationEquals,
    /// After that: a number, or the name of a plan.
    Replication,
    /// After RANDOMIZE: `(`, an option or `;`.
    Randomize,
    /// After `(`: a number.
    Seed,
    /// After that: `)`.
    SeedEnd,
    /// After `[`: the name of a factor.
    FirstInBrackets,
    /// After that: another one, or `]`.
    InBrackets,
    /// After BLOCKNAME or `]`: `=`.
    ColumnEquals,
    /// After that: the name of the block column or of a derived factor.
    Column,
    /// After that: its values, an option or `;`.
    ColumnValues,
    /// After NVALS or CVALS there: the rest of these values, or the values of a factor of that name.
    ValuesOrFactor(ValueKind),
    /// After the name of a factor: its values.
    Factor,
}

impl OutputPlace {
    /// The place after the symbol, or None where the grammar refuses it.
    pub(crate) fn next(self, symbol: Symbol) -> Option<State>
        ensures { derivative symbol (output_left self) ≡ shape_left result }
    {
        match self {
            Self::Out => only(Symbol::Out, symbol, State::Output(Self::Equals)),
            Self::Equals => only(Symbol::Equals, symbol, State::Output(Self::DataSet)),
            Self::DataSet => any_word(symbol, State::Output(Self::Options)),
            Self::Options => option(symbol),
            Self::ReplicationEquals => {
                only(Symbol::Equals, symbol, State::Output(Self::Replication))
            }
            Self::Replication => number_or_word(symbol, State::Output(Self::Options)),
            Self::Randomize => seed_or_option(symbol),
            Self::Seed => only(Symbol::Whole, symbol, State::Output(Self::SeedEnd)),
            Self::SeedEnd => only(Symbol::Close, symbol, State::Output(Self::Options)),
            Self::FirstInBrackets => any_word(symbol, State::Output(Self::InBrackets)),
            Self::InBrackets => name_or_end(symbol),
            Self::ColumnEquals => only(Symbol::Equals, symbol, State::Output(Self::Column)),
            Self::Column => any_word(symbol, State::Output(Self::ColumnValues)),
            Self::ColumnValues => values_or_option(symbol),
            Self::ValuesOrFactor(kind) => rest_or_values(kind, symbol),
            Self::Factor => values(symbol),
        }
    }
}

/// The place after the first word of an option, or after `;`.
fn option(symbol: Symbol) -> Option<State>
    ensures { derivative symbol (output_left OutputPlace.Options) ≡ shape_left result }
{
    match symbol {
        Symbol::Pointrep | Symbol::Designrep => {
            Some(State::Output(OutputPlace::ReplicationEquals))
        }
        Symbol::Randomize => Some(State::Output(OutputPlace::Randomize)),
        Symbol::Novalran => Some(State::Output(OutputPlace::Options)),
        Symbol::Blockname => Some(State::Output(OutputPlace::ColumnEquals)),
        Symbol::OpenBracket => Some(State::Output(OutputPlace::FirstInBrackets)),
        Symbol::Semicolon => Some(State::Step),
        _ => any_word(symbol, State::Output(OutputPlace::Factor)),
    }
}

/// The place after a number or any word.
fn number_or_word(symbol: Symbol, behind: State) -> Option<State>
    ensures { result ≡ if is Symbol.Whole symbol || is_word symbol then Some behind else None }
{
    if Symbol::Whole.is(symbol) || symbol.is_word() {
        Some(behind)
    } else {
        None
    }
}

/// The place after another name in brackets, or after `]`.
fn name_or_end(symbol: Symbol) -> Option<State>
    ensures { derivative symbol (output_left OutputPlace.InBrackets) ≡ shape_left result }
{
    match symbol {
        Symbol::CloseBracket => Some(State::Output(OutputPlace::ColumnEquals)),
        _ => any_word(symbol, State::Output(OutputPlace::InBrackets)),
    }
}

/// The place after `(`, or after the first word of an option, or after `;`.
fn seed_or_option(symbol: Symbol) -> Option<State>
    ensures { derivative symbol (output_left OutputPlace.Randomize) ≡ shape_left result }
{
    match symbol {
        Symbol::Open => Some(State::Output(OutputPlace::Seed)),
        _ => option(symbol),
    }
}

/// The place after `=`, where NVALS or CVALS begins the values of the column, or after the word that
/// begins the values of a factor of that name.
fn rest_or_values(kind: ValueKind, symbol: Symbol) -> Option<State>
    ensures { derivative symbol (output_left (OutputPlace.ValuesOrFactor kind)) ≡ shape_left result }
{
    match symbol {
        Symbol::Equals => Some(State::Values(ValuesPlace::Open(kind))),
        _ => values(symbol),
    }
}

/// The place after the word that begins the values of a factor.
fn values(symbol: Symbol) -> Option<State>
    ensures { derivative symbol (output_left OutputPlace.Factor) ≡ shape_left result }
{
    match symbol {
        Symbol::Nvals => Some(State::Values(ValuesPlace::Equals(ValueKind::Numbers))),
        Symbol::Cvals => Some(State::Values(ValuesPlace::Equals(ValueKind::Texts))),
        _ => None,
    }
}

/// The place after the first word of the column's values, of an option, or after `;`.
fn values_or_option(symbol: Symbol) -> Option<State>
    ensures { derivative symbol (output_left OutputPlace.ColumnValues) ≡ shape_left result }
{
    match symbol {
        Symbol::Nvals => Some(State::Output(OutputPlace::ValuesOrFactor(ValueKind::Numbers))),
        Symbol::Cvals => Some(State::Output(OutputPlace::ValuesOrFactor(ValueKind::Texts))),
        _ => option(symbol),
    }
}
