ghost use Rattle.std.specs.Prelude.{◌≡◌, []};
ghost use Rattle.fx_language.specs.Grammar.{program};
ghost use Rattle.fx_language.specs.Refusals.{refused};
ghost use Rattle.fx_language.specs.FirstRefusal.{earlier, first_refusal};
ghost use Rattle.fx_language.specs.Continuations.{shape_at};

use crate::repeated::first_by_rules;
use crate::state::State;
use crate::symbol::Symbol;

/// The first symbol of a program that is refused, with its code, and its index from 0: by the
/// grammar, or by the rules on words that are repeated or too late. The end counts as a symbol.
///
/// The codes are those of `first_by_grammar` and of `first_by_rules`.
pub fn first_refusal(symbols: &[Symbol]) -> Option<(u8, usize)>
    ensures { result ≡ first_refusal symbols.now }
{
    earlier(first_by_grammar(symbols), first_by_rules(symbols))
}

/// The earlier of the refusals by the grammar and by the other rules, at one symbol the grammar's.
fn earlier(grammar: Option<(u8, usize)>, rules: Option<(u8, usize)>) -> Option<(u8, usize)>
    ensures { result ≡ earlier grammar rules }
{
    match (grammar, rules) {
        (Some(refused), Some(repeated)) => {
            if repeated.1 < refused.1 {
                rules
            } else {
                grammar
            }
        }
        (Some(_), None) => grammar,
        (None, _) => rules,
    }
}

/// The first symbol that the grammar doesn't allow, with its code, and its index from 0. The end
/// counts as a symbol.
///
/// 1: a word that begins no statement, or another procedure than FACTEX. 3: a word in the place of
/// an option. 24: a part of the statement language that this product leaves out. 2: any other.
pub fn first_by_grammar(symbols: &[Symbol]) -> Option<(u8, usize)>
    ensures { result ≡ refused 0 program symbols.now }
{
    let mut state = State::Between;
    for (i, symbol) in symbols.iter().enumerate() {
        match state.next(*symbol) {
            Some(next) => state = next,
            None => return Some((state.code(*symbol), i)),
        }
    }
    refused_end(state, symbols.len())
}

/// The refusal of the end, at this index, where the grammar refuses it.
fn refused_end(state: State, end: usize) -> Option<(u8, usize)>
    ensures { result ≡ refused end (shape_at state) [] }
{
    match state.next(Symbol::End) {
        Some(_) => None,
        None => Some((state.code(Symbol::End), end)),
    }
}
