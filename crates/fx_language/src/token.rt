ghost use Rattle.std.specs.Prelude.{◌≡◌, ◌++◌, ◌<◌, map, length, IfOk, All};
ghost use Rattle.fx_lexer.specs.Tokens.{IsToken};
ghost use Rattle.fx_language.specs.Keywords.{keywords, short_forms, sign, symbol_of, symbols_of};
ghost use Rattle.fx_language.specs.Spellings.{spelling_row};

use crate::keyword::{Spelling, look_up, spellings};
use crate::symbol::{Symbol, Symbols};
use fx_base::NoMemory;
use fx_lexer::{Kind, Token, Tokens};
use std::alloc::Global;

/// The symbols of the tokens of a text, keywords without regard to case.
///
/// # Errors
///
/// `NoMemory`.
pub fn symbols(alloc: Global, text: &[u8], tokens: &Tokens) -> Result<Symbols, NoMemory>
    requires { All (IsToken text.now) tokens.now }
    ensures { IfOk result (λ symbols. symbols ≡ symbols_of text.now tokens.now) }
{
    let keywords = spellings();
    let mut symbols = Symbols::new(alloc);
    for token in tokens.as_slice() {
        symbols.push(symbol_of(&keywords, token.kind, &text[token.from..token.upto]))?;
    }
    Ok(symbols)
}

/// The symbol of a token of this kind with these bytes.
fn symbol_of(spellings: &[Spelling], kind: Kind, bytes: &[u8]) -> Symbol
    requires keywords { map spelling_row spellings.now ≡ keywords ++ short_forms }
    requires some { 0 < length bytes.now }
    ensures { result ≡ symbol_of kind bytes.now }
{
    match kind {
        Kind::Word => look_up(spellings, bytes),
        Kind::Whole => Symbol::Whole,
        Kind::Decimal => Symbol::Decimal,
        Kind::Quoted => Symbol::Quoted,
        Kind::Sign => sign(bytes[0]),
    }
}

/// The symbol of a sign.
fn sign(b: u8) -> Symbol
    ensures { result ≡ sign b }
{
    match b {
        b';' => Symbol::Semicolon,
        b'=' => Symbol::Equals,
        b'(' => Symbol::Open,
        b')' => Symbol::Close,
        b'[' => Symbol::OpenBracket,
        b']' => Symbol::CloseBracket,
        b'/' => Symbol::Slash,
        b'*' => Symbol::Star,
        b'|' => Symbol::Bar,
        b'@' => Symbol::At,
        _ => Symbol::Minus,
    }
}
