ghost use Rattle.std.specs.Prelude.{◌≡◌, ◌+◌, ◌<◌, ◌≤◌, ◌^◌, None, Some, length, IfOk};
ghost use Rattle.fx_lexer.specs.Items.{begins_number, first_item, limited, item_of_number, token_item};

use crate::byte::{begins_word, is_quote, is_sign, is_white};
use crate::extent::{
    begins_comment, begins_remark, closing_len, digits_len, fraction_len, quoted_len, remark_len,
    word_len,
};
use crate::token::Kind;

// The kinds of faults in a `LexFault`.
const OPEN_COMMENT: u8 = 1;

const OPEN_QUOTED: u8 = 2;

const STRAY_BYTE: u8 = 3;

const LONG_NUMBER: u8 = 4;

const LONG_WORD: u8 = 5;

/// The most bytes of a word.
const MOST_WORD_BYTES: usize = 32;

/// The most bytes of a number.
const MOST_NUMBER_BYTES: usize = 38;

/// What a text begins with: a token, or a byte of white space or a comment, which have no kind.
#[derive(Clone, Copy)]
pub struct Item {
    pub kind: Option<Kind>,
    pub length: usize,
}

/// The item that a text begins with, or the kind of its fault. `start` is whether a statement
/// starts here.
pub fn first_item(start: bool, bytes: &[u8]) -> Result<Item, u8>
    requires { 0 < length bytes.now }
    ensures value { result ≡ first_item start bytes.now }
    ensures bound { IfOk result (λ i. (0 < i.length) × (i.length ≤ length bytes.now)) }
{
    let b = bytes[0];
    if is_white(b) {
        return Ok(gap(1));
    }
    if begins_comment(bytes) {
        return match closing_len(&bytes[2..]) {
            Some(n) => Ok(gap(2 + n)),
            None => Err(OPEN_COMMENT),
        };
    }
    if begins_remark(start, bytes) {
        return match remark_len(bytes) {
            Some(n) => Ok(gap(n)),
            None => Err(OPEN_COMMENT),
        };
    }
    first_token(bytes)
}

/// The token that a text begins with, or the kind of its fault, where no white space, comment or remark
/// begins there.
fn first_token(bytes: &[u8]) -> Result<Item, u8>
    requires { 0 < length bytes.now }
    ensures value { result ≡ token_item bytes.now }
    ensures bound { IfOk result (λ i. (0 < i.length) × (i.length ≤ length bytes.now)) }
{
    let b = bytes[0];
    if begins_word(b) {
        return limited_item(Kind::Word, word_len(bytes), MOST_WORD_BYTES, LONG_WORD);
    }
    let whole = digits_len(bytes);
    let fraction = fraction_len(&bytes[whole..]);
    if begins_number(whole, fraction) {
        return number(whole, fraction);
    }
    if is_quote(b) {
        return match quoted_len(b, &bytes[1..]) {
            Some(n) => Ok(token(Kind::Quoted, n + 1)),
            None => Err(OPEN_QUOTED),
        };
    }
    if is_sign(b) {
        Ok(token(Kind::Sign, 1))
    } else {
        Err(STRAY_BYTE)
    }
}

fn gap(length: usize) -> Item
    ensures { result ≡ record { kind = None; length = length } }
{
    Item { kind: None, length }
}

fn token(kind: Kind, length: usize) -> Item
    ensures { result ≡ record { kind = Some kind; length = length } }
{
    Item {
        kind: Some(kind),
        length,
    }
}

/// A token of this kind and length, or the fault that it is too long.
fn limited_item(kind: Kind, length: usize, limit: usize, fault: u8) -> Result<Item, u8>
    ensures { result ≡ limited kind length limit fault }
{
    if length <= limit {
        Ok(token(kind, length))
    } else {
        Err(fault)
    }
}

fn begins_number(whole: usize, fraction: usize) -> bool
    requires { whole + fraction < 2 ^ 64 }
    ensures { result ≡ begins_number whole fraction }
{
    0 < whole + fraction
}

fn number(whole: usize, fraction: usize) -> Result<Item, u8>
    requires { whole + fraction < 2 ^ 64 }
    ensures { result ≡ item_of_number whole fraction }
{
    if fraction == 0 {
        limited_item(Kind::Whole, whole, MOST_NUMBER_BYTES, LONG_NUMBER)
    } else {
        limited_item(
            Kind::Decimal,
            whole + fraction,
            MOST_NUMBER_BYTES,
            LONG_NUMBER,
        )
    }
}
