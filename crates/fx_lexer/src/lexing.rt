ghost use Rattle.std.specs.Prelude.{◌≡◌, ◌+◌, ◌<◌, ◌≤◌, ◌^◌, ◌++◌, Ok, length, IfOk, IfErr, OnOk, All};
ghost use Rattle.fx_lexer.specs.Tokens.{AreInOrder, IsToken};
ghost use Rattle.fx_lexer.specs.Lexing.{lexed, starts_after, tokens_of, IsFirstFault};

use crate::item::{Item, first_item};
use crate::place::{Place, place_at};
use crate::token::{LexFault, LexStop, Token, Tokens};
use fx_base::NoMemory;
use std::alloc::Global;

/// The tokens of a text of at most 1,048,576 bytes.
///
/// # Errors
///
/// `Fault` with the first lexical fault of the text, only where it has one, and `NoMemory`.
#[tactic(auto, unfolding(crate::specs::Lexing::lexed))]
pub fn lex(alloc: Global, text: &[u8]) -> Result<Tokens, LexStop>
    requires { length text.now ≤ 1048576 }
    ensures tokens { IfOk result (λ tokens. lexed text.now ≡ Ok tokens) }
    ensures fault { IfErr result (IsFirstFault text.now) }

    // The span, place, kind and form of each token.
    ensures each { IfOk result (All (IsToken text.now)) }
    ensures order { IfOk result (AreInOrder 0 (length text.now)) }
{
    let mut tokens = Tokens::new(alloc);
    let mut at = 0;
    let mut start = true;
    let mut place = Place { line: 1, column: 1 };
    while at < text.len() {
        match first_item(start, &text[at..]) {
            Err(kind) => {
                return Err(LexStop::Fault(LexFault {
                    kind,
                    line: place.line,
                    column: place.column,
                }));
            }
            Ok(item) => {
                keep(&mut tokens, at, item, place)?;
                start = starts_after(start, item, text[at]);
                place = place_at(text, at, at + item.length, place);
                at += item.length;
            }
        }
    }
    Ok(tokens)
}

/// Adds the token of an item, where it is one.
fn keep(tokens: &mut Tokens, at: usize, item: Item, place: Place) -> Result<(), NoMemory>
    requires { at + item.length < 2 ^ 64 }
    ensures { OnOk result (tokens.new ≡ tokens.old ++ tokens_of place at item) }
{
    let kind = match item.kind {
        Some(kind) => kind,
        None => return Ok(()),
    };
    tokens.push(Token {
        kind,
        line: place.line,
        column: place.column,
        from: at,
        upto: at + item.length,
    })
}

/// Whether a statement starts after an item whose first byte is `b`.
fn starts_after(start: bool, item: Item, b: u8) -> bool
    ensures { result ≡ starts_after start item b }
{
    if item.kind.is_some() {
        b == b';'
    } else {
        start
    }
}
