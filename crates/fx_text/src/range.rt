// A range of names is written `X2-X5`.

ghost use Rattle.std.specs.Prelude.{◌≡◌, ◌≤◌, ◌++◌, true, decimal, reverse, length, IfOk, MatchOption, None, Some};
ghost use Rattle.std.specs.List.{list_all, prefix_len};
ghost use Rattle.fx_lexer.specs.Bytes.{is_digit};
ghost use Rattle.fx_text.specs.Ranges.{begins_with_zero, digits_at_end, has_leading_zero, is_numeral, is_plain};
ghost use Rattle.fx_text.specs.Ranges.{is_range, number_at_end, range_end, stem, stem_len};

use crate::lexeme::{Lexeme, number};
use crate::name::is_same_name;
use fx_base::{Bytes, NoMemory, put_number};
use fx_language::Symbol;
use std::alloc::Global;

/// The last name of a range, where `-` follows the first.
pub fn range_end<'b, 'a>(lexemes: &'b [Lexeme<'a>]) -> Option<&'b Lexeme<'a>>
    ensures { MatchOption result (range_end lexemes.now ≡ None)
        (λ w. range_end lexemes.now ≡ Some w.now) }
{
    if 1 < lexemes.len() && lexemes[0].is(Symbol::Minus) {
        Some(&lexemes[1])
    } else {
        None
    }
}

/// Whether these are the first and the last name of a range: they have one stem and end in numbers,
/// the first not above the last.
#[tactic(auto, using(crate::proofs::RangeParts::plain, crate::proofs::RangeParts::order))]
pub fn is_range(first: &[u8], last: &[u8]) -> bool
    ensures value { result ≡ is_range first.now last.now }
    ensures plain { result ≡ true
        → (is_plain (digits_at_end first.now) ≡ true)
        × (is_plain (digits_at_end last.now) ≡ true) }
    ensures order { result ≡ true → number_at_end first.now ≤ number_at_end last.now }
{
    1 <= stem_len(first)
        && is_plain(ending(first))
        && is_plain(ending(last))
        && is_same_name(stem(first), stem(last))
        && number_at_end(first) <= number_at_end(last)
}

/// The name without the digits at its end.
pub fn stem(name: &[u8]) -> &[u8]
    ensures { result.now ≡ stem name.now }
{
    &name[..stem_len(name)]
}

/// The number at the end of a name.
pub fn number_at_end(name: &[u8]) -> u128
    requires { is_plain (digits_at_end name.now) ≡ true }
    ensures { result ≡ number_at_end name.now }
{
    number(ending(name))
}

/// A stem with a number after it.
pub fn numbered_name(alloc: Global, stem: &[u8], number: u128) -> Result<Bytes, NoMemory>
    ensures { IfOk result (λ name. name ≡ stem.now ++ decimal number) }
{
    let mut name = Bytes::from_slice(alloc, stem)?;
    put_number(&mut name, number)?;
    Ok(name)
}

/// The digits at the end of a name.
fn ending(name: &[u8]) -> &[u8]
    ensures { result.now ≡ digits_at_end name.now }
{
    &name[stem_len(name)..]
}

/// How much of a name precedes the digits at its end.
fn stem_len(name: &[u8]) -> usize
    ensures value { result ≡ stem_len name.now }
    ensures bound { result ≤ length name.now }
{
    name.len() - digits_at_end(name)
}

fn digits_at_end(name: &[u8]) -> usize
    ensures value { result ≡ prefix_len is_digit (reverse name.now) }
    ensures bound { result ≤ length name.now }
{
    name.iter().rev().take_while(|b| b.is_ascii_digit()).count()
}

/// Whether these are the digits of a number without a leading zero.
fn is_plain(digits: &[u8]) -> bool
    ensures { result ≡ is_plain digits.now }
{
    is_numeral(digits) && !has_leading_zero(digits)
}

/// Whether these are 1 to 38 digits.
fn is_numeral(digits: &[u8]) -> bool
    ensures { result ≡ is_numeral digits.now }
{
    are_digits(digits) && (1..=38).contains(&digits.len())
}

fn are_digits(bytes: &[u8]) -> bool
    ensures { result ≡ list_all is_digit bytes.now }
{
    bytes.iter().all(|b| b.is_ascii_digit())
}

/// Whether a zero is first, and not alone.
fn has_leading_zero(digits: &[u8]) -> bool
    ensures { result ≡ has_leading_zero digits.now }
{
    begins_with_zero(digits) && digits.len() != 1
}

fn begins_with_zero(digits: &[u8]) -> bool
    ensures { result ≡ begins_with_zero digits.now }
{
    digits.first() == Some(&b'0')
}
