ghost use Rattle.std.specs.Prelude.{◌≡◌, Some, None, if◌then◌else◌, ◌&&◌};
ghost use Rattle.fx_language.specs.Symbols.{is, is_word};
ghost use Rattle.fx_language.specs.Shapes.{derivative, fault_code};
ghost use Rattle.fx_language.specs.Refusals.{allows, allows_option, code_of};
ghost use Rattle.fx_language.specs.Grammar.{program, unknown};
ghost use Rattle.fx_language.specs.Continuations.{in_step, shape_left, shape_at};

use crate::code;
use crate::effects::{EffectList, EffectPlace};
use crate::examine::ExaminePlace;
use crate::factors::FactorsPlace;
use crate::foldover::FoldoverPlace;
use crate::model::ModelPlace;
use crate::output::OutputPlace;
use crate::proc::ProcPlace;
use crate::setting::SettingPlace;
use crate::symbol::Symbol;
use crate::values::ValuesPlace;

/// A place in the grammar.
#[derive(Clone, Copy)]
pub enum State {
    /// Outside of steps: a statement, PROC or the end.
    Between,
    /// After RUN or QUIT outside of steps, and after the QUIT that ends one: `;`.
    Closing,
    /// After the end: nothing.
    Ended,
    /// In a step: a statement, or what ends the step.
    Step,
    /// After all of a statement of a step but its `;`.
    StatementEnd,
    Proc(ProcPlace),
    Factors(FactorsPlace),
    Setting(SettingPlace),
    Model(ModelPlace),
    Effects(EffectList, EffectPlace),
    Examine(ExaminePlace),
    Foldover(FoldoverPlace),
    Output(OutputPlace),
    Values(ValuesPlace),
}

impl State {
    /// The place after the symbol, or None where the grammar refuses it.
    pub(crate) fn next(self, symbol: Symbol) -> Option<State>
        ensures { derivative symbol (shape_at self) ≡ shape_left result }
    {
        match self {
            State::Between => outside_step(symbol),
            State::Closing => only(Symbol::Semicolon, symbol, State::Between),
            State::Ended => None,
            State::Step => inside_step(symbol),
            State::StatementEnd => only(Symbol::Semicolon, symbol, State::Step),
            State::Proc(place) => place.next(symbol),
            State::Factors(place) => place.next(symbol),
            State::Setting(place) => place.next(symbol),
            State::Model(place) => place.next(symbol),
            State::Effects(list, place) => place.next(list, symbol),
            State::Examine(place) => place.next(symbol),
            State::Foldover(place) => place.next(symbol),
            State::Output(place) => place.next(symbol),
            State::Values(place) => place.next(symbol),
        }
    }

    /// The code of a symbol that the grammar refuses here.
    pub(crate) fn code(self, symbol: Symbol) -> u8
        ensures { result ≡ code_of (shape_at self) symbol }
    {
        match self.named_code(symbol) {
            Some(code) => code,
            None => self.general_code(symbol),
        }
    }

    /// The code of a symbol for which the grammar names none here.
    fn general_code(self, symbol: Symbol) -> u8
        ensures { result ≡ if is_word symbol && allows_option (shape_at self) then 3 else 2 }
    {
        if symbol.is_word() && self.allows_option() {
            code::UNKNOWN_OPTION
        } else {
            code::UNEXPECTED_SYMBOL
        }
    }

    /// The code that the grammar names for the symbol here.
    fn named_code(self, symbol: Symbol) -> Option<u8>
        ensures { result ≡ fault_code symbol (shape_at self) }
    {
        match self {
            State::Between | State::Step => unknown_statement(symbol),
            State::Proc(place) => place.named_code(symbol),
            State::Model(place) => place.named_code(symbol),
            State::Examine(place) => place.named_code(symbol),
            State::Closing | State::Ended | State::StatementEnd => None,
            State::Factors(_) | State::Setting(_) | State::Effects(_, _) => None,
            State::Foldover(_) | State::Output(_) | State::Values(_) => None,
        }
    }

    /// Whether an option is allowed here.
    fn allows_option(self) -> bool
        ensures { result ≡ allows_option (shape_at self) }
    {
        let options = [
            Symbol::Nodes,
            Symbol::Nlev,
            Symbol::Design,
            Symbol::Fraction,
            Symbol::Nrunfacs,
            Symbol::Estimate,
            Symbol::Nonnegligible,
            Symbol::Resolution,
            Symbol::Minabs,
            Symbol::Nblkfacs,
            Symbol::Nblocks,
            Symbol::Size,
            Symbol::Aliasing,
            Symbol::Out,
            Symbol::Nvals,
            Symbol::Cvals,
        ];
        options.iter().any(|option| self.allows(*option))
    }

    #[tactic(auto, using(crate::proofs::Places::never_left))]
    fn allows(self, symbol: Symbol) -> bool
        ensures { result ≡ allows (shape_at self) symbol }
    {
        self.next(symbol).is_some()
    }
}

/// The code of a word that begins no statement.
fn unknown_statement(symbol: Symbol) -> Option<u8>
    ensures { result ≡ fault_code symbol unknown }
{
    match symbol {
        Symbol::Uniteffect => Some(code::NOT_IN_PROFILE),
        _ => if_word(symbol, code::UNKNOWN_STATEMENT),
    }
}

/// This code for any word.
pub(crate) fn if_word(symbol: Symbol, code: u8) -> Option<u8>
    ensures { result ≡ if is_word symbol then Some code else None }
{
    if symbol.is_word() { Some(code) } else { None }
}

fn outside_step(symbol: Symbol) -> Option<State>
    ensures { derivative symbol program ≡ shape_left result }
{
    match symbol {
        Symbol::Semicolon => Some(State::Between),
        Symbol::Run | Symbol::Quit => Some(State::Closing),
        Symbol::Proc => Some(State::Proc(ProcPlace::Procedure)),
        Symbol::End => Some(State::Ended),
        _ => None,
    }
}

fn inside_step(symbol: Symbol) -> Option<State>
    ensures { derivative symbol in_step ≡ shape_left result }
{
    match symbol {
        Symbol::Semicolon => Some(State::Step),
        Symbol::Run => Some(State::StatementEnd),
        Symbol::Factors => Some(State::Factors(FactorsPlace::First)),
        Symbol::Size => Some(State::Setting(SettingPlace::SizeWord)),
        Symbol::Model => Some(State::Model(ModelPlace::Word)),
        Symbol::Blocks => Some(State::Setting(SettingPlace::BlocksWord)),
        Symbol::Examine => Some(State::Examine(ExaminePlace::Sections)),
        Symbol::Output => Some(State::Output(OutputPlace::Out)),
        Symbol::Foldover => Some(State::Foldover(FoldoverPlace::Items)),
        Symbol::Quit => Some(State::Closing),
        Symbol::Proc => Some(State::Proc(ProcPlace::Procedure)),
        Symbol::End => Some(State::Ended),
        _ => None,
    }
}

/// The place after this symbol alone.
pub(crate) fn only(want: Symbol, symbol: Symbol, behind: State) -> Option<State>
    ensures { result ≡ if is want symbol then Some behind else None }
{
    if want.is(symbol) { Some(behind) } else { None }
}

/// The place after any word.
pub(crate) fn any_word(symbol: Symbol, behind: State) -> Option<State>
    ensures { result ≡ if is_word symbol then Some behind else None }
{
    if symbol.is_word() { Some(behind) } else { None }
}
