ghost use Rattle.std.specs.Prelude.{◌≡◌, ◌≤◌, length, take, IfOk};
ghost use Rattle.fx_outputs.specs.Options.{are_open_behind, begins_option, is_first, option_len, option_of, options_of};

use fx_base::{Items, NoMemory};
use fx_language::Symbol;
use fx_text::{Lexeme, Phrase};
use std::alloc::Global;

/// The options of an OUTPUT statement, each with all that belongs to it.
pub type Options<'a> = Items<Phrase<'a>>;

/// The options of what follows `OUT =`, the OUT name first.
pub fn options_of<'a>(alloc: Global, phrase: &Phrase<'a>) -> Result<Options<'a>, NoMemory>
    ensures { IfOk result (λ options. options ≡ options_of phrase.now) }
{
    let lexemes = phrase.lexemes();
    let mut options = Options::new(alloc);
    let mut within = false;
    for (i, before) in lexemes.iter().enumerate() {
        let rest = &lexemes[i + 1..];
        within = are_open_behind(within, before);
        if begins_option(within, before, rest) {
            options.push(Phrase::new(&rest[..option_len(within, rest)]))?;
        }
    }
    Ok(options)
}

/// How much precedes the next option.
fn option_len(inside: bool, lexemes: &[Lexeme<'_>]) -> usize
    ensures value { result ≡ option_len inside lexemes.now }
    ensures bound { result ≤ length lexemes.now }
{
    let mut within = inside;
    for (i, w) in lexemes.iter().enumerate() {
        within = are_open_behind(within, w);
        if begins_option(within, w, &lexemes[i + 1..]) {
            return i + 1;
        }
    }
    lexemes.len()
}

/// Whether brackets are open behind a lexeme, where `inside` says whether they are in front of it.
fn are_open_behind(inside: bool, w: &Lexeme<'_>) -> bool
    ensures { result ≡ are_open_behind inside w.now }
{
    w.is(Symbol::OpenBracket) || (inside && !w.is(Symbol::CloseBracket))
}

/// Whether an option begins behind `before`, outside of brackets: any word behind `=` is a name.
fn begins_option(within: bool, before: &Lexeme<'_>, rest: &[Lexeme<'_>]) -> bool
    ensures { result ≡ begins_option within before.now rest.now }
{
    !rest.is_empty()
        && !(within || before.is(Symbol::Equals))
        && is_first(&rest[0], &Phrase::new(&rest[1..]))
}

/// Whether it is `[`, the word of an option, or another word without `=` after it.
fn is_first(w: &Lexeme<'_>, rest: &Phrase<'_>) -> bool
    ensures { result ≡ is_first w.now rest.now }
{
    let symbol = w.symbol();
    w.is(Symbol::OpenBracket)
        || symbol.is_output_option()
        || (symbol.is_word() && !rest.begins(Symbol::Equals))
}

/// The option that begins with this word, nothing where there is none.
pub fn option_of<'a>(word: Symbol, options: &[Phrase<'a>]) -> Phrase<'a>
    ensures { result ≡ option_of word options.now }
{
    for option in options {
        if option.begins(word) {
            return Phrase::new(option.lexemes());
        }
    }
    Phrase::new(&[])
}
