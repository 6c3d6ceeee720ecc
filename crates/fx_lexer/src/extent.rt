//! How far an item reaches: each function here looks at the front of the bytes that it is given.
ghost use Rattle.std.specs.Prelude.{◌≡◌, ◌<◌, ◌≤◌, true, false, length, IfSome};
ghost use Rattle.std.specs.List.{prefix_len};
ghost use Rattle.fx_lexer.specs.Bytes.{is_digit, is_word_byte};
ghost use Rattle.fx_lexer.specs.Extents.{begins_comment, begins_remark, closing_len, ends_comment, ends_quoted};
ghost use Rattle.fx_lexer.specs.Extents.{fraction_len, opens_pair, quoted_len, remark_len, starts_with_byte};

use crate::byte::{is_digit, is_word_byte};

/// Whether `b` is the first byte.
pub fn starts_with_byte(b: u8, bytes: &[u8]) -> bool
    ensures { result ≡ starts_with_byte b bytes.now }
{
    bytes.first() == Some(&b)
}

/// Whether a comment from `/*` to `*/` begins here.
pub fn begins_comment(bytes: &[u8]) -> bool
    ensures value { result ≡ begins_comment bytes.now }
    ensures two { result ≡ true → 2 ≤ length bytes.now }
{
    starts_with_byte(b'/', bytes) && starts_with_byte(b'*', &bytes[1..])
}

/// Whether a comment from `*` to `;` begins here, which it does only where a statement may start.
pub fn begins_remark(start: bool, bytes: &[u8]) -> bool
    ensures { result ≡ begins_remark start bytes.now }
{
    start && starts_with_byte(b'*', bytes)
}

/// Letters, digits and `_`, or 0 where none is first.
pub fn word_len(bytes: &[u8]) -> usize
    ensures value { result ≡ prefix_len is_word_byte bytes.now }
    ensures bound { result ≤ length bytes.now }
{
    bytes.iter().take_while(|b| is_word_byte(**b)).count()
}

/// Decimal digits, or 0 where there are none.
pub fn digits_len(bytes: &[u8]) -> usize
    ensures value { result ≡ prefix_len is_digit bytes.now }
    ensures bound { result ≤ length bytes.now }
{
    bytes.iter().take_while(|b| is_digit(**b)).count()
}

/// A point and the digits after it, or 0 where there are none.
pub fn fraction_len(bytes: &[u8]) -> usize
    ensures value { result ≡ fraction_len bytes.now }
    ensures bound { result ≤ length bytes.now }
{
    if !starts_with_byte(b'.', bytes) {
        return 0;
    }
    let digits = digits_len(&bytes[1..]);
    if digits > 0 { 1 + digits } else { 0 }
}

/// Up to and with the first `*/`.
pub fn closing_len(bytes: &[u8]) -> Option<usize>
    ensures value { result ≡ closing_len bytes.now }
    ensures bound { IfSome result (λ n. (0 < n) × (n ≤ length bytes.now)) }
{
    for i in 0..bytes.len() {
        if ends_comment(&bytes[i..]) {
            return Some(i + 2);
        }
    }
    None
}

fn ends_comment(bytes: &[u8]) -> bool
    ensures { result ≡ ends_comment bytes.now }
{
    starts_with_byte(b'*', bytes) && starts_with_byte(b'/', &bytes[1..])
}

/// Up to and with the first `;`.
pub fn remark_len(bytes: &[u8]) -> Option<usize>
    ensures value { result ≡ remark_len bytes.now }
    ensures bound { IfSome result (λ n. (0 < n) × (n ≤ length bytes.now)) }
{
    for (i, b) in bytes.iter().enumerate() {
        if *b == b';' {
            return Some(i + 1);
        }
    }
    None
}

/// Up to and with the first `quote` that isn't one of a pair.
pub fn quoted_len(quote: u8, bytes: &[u8]) -> Option<usize>
    ensures value { result ≡ quoted_len quote false bytes.now }
    ensures bound { IfSome result (λ n. (0 < n) × (n ≤ length bytes.now)) }
{
    let mut in_pair = false;
    for i in 0..bytes.len() {
        if ends_quoted(quote, in_pair, &bytes[i..]) {
            return Some(i + 1);
        }
        in_pair = opens_pair(quote, in_pair, bytes[i]);
    }
    None
}

fn ends_quoted(quote: u8, in_pair: bool, bytes: &[u8]) -> bool
    ensures { result ≡ ends_quoted quote in_pair bytes.now }
{
    !in_pair && starts_with_byte(quote, bytes) && !starts_with_byte(quote, &bytes[1..])
}

fn opens_pair(quote: u8, in_pair: bool, b: u8) -> bool
    ensures { result ≡ opens_pair quote in_pair b }
{
    !in_pair && b == quote
}
