ghost use Rattle.std.specs.Prelude.{◌≡◌, not, IfOk, MatchOption, Some, None};
ghost use Rattle.std.specs.List.{prefix_len};
ghost use Rattle.fx_language.specs.declared.symbol.Symbol.TheVariants.{Semicolon};
ghost use Rattle.fx_language.specs.Symbols.{is};
ghost use Rattle.fx_text.specs.Statements.{statements_of, statement_of};

use crate::lexeme::Lexeme;
use crate::phrase::Phrase;
use fx_base::{Items, NoMemory};
use fx_language::Symbol;
use std::alloc::Global;

/// The phrase before a semicolon.
pub type Statement<'a> = Phrase<'a>;

/// The statements of a text, in order.
pub type Statements<'a> = Items<Statement<'a>>;

/// The statements of a text.
///
/// # Errors
///
/// `NoMemory`.
pub fn statements<'a>(alloc: Global, lexemes: &'a [Lexeme<'a>]) -> Result<Statements<'a>, NoMemory>
    ensures { IfOk result (λ statements. statements ≡ statements_of lexemes.now) }
{
    let mut statements = Statements::new(alloc);
    let mut at = 0;
    while at < lexemes.len() {
        let rest = &lexemes[at..];
        let len = statement_len(rest);
        statements.push(Phrase::new(&rest[..len]))?;
        at += len + 1;
    }
    Ok(statements)
}

/// How much precedes the first semicolon.
fn statement_len(lexemes: &[Lexeme<'_>]) -> usize
    ensures { result ≡ prefix_len (λ w. not (is Semicolon w.symbol)) lexemes.now }
{
    lexemes
        .iter()
        .take_while(|w| !w.is(Symbol::Semicolon))
        .count()
}

/// The first statement that begins with this word.
pub fn find<'a>(word: Symbol, statements: &[Statement<'a>]) -> Option<Statement<'a>>
    ensures { result ≡ statement_of word statements.now }
{
    for statement in statements {
        if statement.begins(word) {
            return Some(Phrase::new(statement.lexemes()));
        }
    }
    None
}
