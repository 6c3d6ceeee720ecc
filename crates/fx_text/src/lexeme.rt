ghost use Rattle.std.specs.Prelude.{◌≡◌, IfOk, All, Some};
ghost use Rattle.std.specs.Str.Parse.{digits_value};
ghost use Rattle.fx_lexer.specs.Tokens.{IsToken};
ghost use Rattle.fx_language.specs.Symbols.{is};
ghost use Rattle.fx_language.specs.Keywords.{symbols_of};
ghost use Rattle.fx_text.specs.Written.{written, written_at};
ghost use Rattle.fx_text.specs.Numbers.{number_of, IsNumber, IsRead};
ghost use Rattle.fx_text.specs.Refusals.{place_at, refusal_at};

use crate::refusal::Refusal;
use fx_base::{Items, NoMemory};
use fx_language::Symbol;
use fx_lexer::{Place, Token, Tokens};
use std::alloc::Global;
use std::marker::Model;

/// A word, number, quoted text or sign of a program text. Clauses see its symbol, bytes and place.
#[derive(Drop)]
pub struct Lexeme<'a> {
    symbol: Symbol,
    text: &'a [u8],
    place: Place,
}

impl<'a> Model for Lexeme<'a> {
    ghost use Rattle.fx_text.specs.Written.{Written};
    ghost use Rattle.fx_text.specs.Numbers.{IsRead};

    ghost Value = { Written };

    ghost view = { λ w. record { symbol = w.symbol; text = w.text.now; line = w.place.line; column = w.place.column } };

    ghost invariant = { λ w. IsRead (record { symbol = w.symbol; text = w.text.now; line = w.place.line; column = w.place.column }) };
}

/// What is written in a text, in order.
pub type Lexemes<'a> = Items<Lexeme<'a>>;

impl<'a> Lexeme<'a> {
    /// Its symbol.
    pub fn symbol(&self) -> Symbol
        ensures { result ≡ self.now.symbol }
    {
        self.symbol
    }

    /// Its bytes, a quoted text's with their quotes.
    pub fn text(&self) -> &'a [u8]
        ensures { result.now ≡ self.now.text }
    {
        self.text
    }

    /// Whether it is this symbol.
    pub fn is(&self, symbol: Symbol) -> bool
        ensures { result ≡ is symbol self.now.symbol }
    {
        symbol.is(self.symbol)
    }

    /// The number that it is, where it is one without a point.
    pub fn number(&self) -> Option<u128>
        ensures { result ≡ number_of self.now }
    {
        if Symbol::Whole.is(self.symbol) {
            Some(number(self.text))
        } else {
            None
        }
    }

    /// The place of its first byte.
    pub fn place(&self) -> Place
        ensures { result ≡ place_at self.now }
    {
        self.place
    }

    /// The refusal of the text at it, by this code.
    pub fn refused(&self, code: u8) -> Refusal
        ensures { result ≡ refusal_at code self.now }
    {
        Refusal::at(self.place, code)
    }
}

/// What is written in a text whose tokens and their symbols these are.
///
/// # Errors
///
/// `NoMemory`.
pub fn lexemes<'a>(
    alloc: Global,
    text: &'a [u8],
    tokens: &Tokens,
    symbols: &[Symbol],
) -> Result<Lexemes<'a>, NoMemory>
    requires tokens { All (IsToken text.now) tokens.now }
    requires symbols { symbols.now ≡ symbols_of text.now tokens.now }
    ensures { IfOk result (λ lexemes. lexemes ≡ written text.now tokens.now) }
{
    let mut lexemes = Lexemes::new(alloc);
    for (i, token) in tokens.as_slice().iter().enumerate() {
        lexemes.push(lexeme_at(text, *token, symbols[i]))?;
    }
    Ok(lexemes)
}

/// What a token of this symbol is.
#[tactic(auto, using(crate::proofs::Wholes::is_read))]
fn lexeme_at<'a>(text: &'a [u8], token: Token, symbol: Symbol) -> Lexeme<'a>
    requires token { IsToken text.now token }
    requires symbol { symbol ≡ (written_at text.now token).symbol }
    ensures { result ≡ written_at text.now token }
{
    Lexeme {
        symbol,
        text: &text[token.from..token.upto],
        place: Place {
            line: token.line,
            column: token.column,
        },
    }
}

/// The number that 1 to 38 digits write.
pub fn number(digits: &[u8]) -> u128
    requires { IsNumber digits.now }
    ensures { result ≡ digits_value 10 digits.now }
{
    match str::from_utf8(digits) {
        Ok(text) => text.parse::<u128>().unwrap_or(0),
        Err(_) => 0,
    }
}
