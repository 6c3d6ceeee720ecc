ghost use Rattle.std.specs.Prelude.{◌≡◌, ◌≤◌, ◌+◌, ◌-◌, ◌^◌, ◌==◌, ◌&&◌, ◌||◌, true, length, nat_le, IfOk, Some};
ghost use Rattle.std.specs.List.{list_all};
ghost use Rattle.fx_designs.specs.Galois.{is_order};
ghost use Rattle.fx_book.specs.declared.version.Version.TheVariants.{Second};
ghost use Rattle.fx_book.specs.declared.fault.BookStop.TheVariants.{Fault};
ghost use Rattle.fx_book.specs.Faults.{fault};
ghost use Rattle.fx_book.specs.Heads.{is_shape};
ghost use Rattle.fx_book.specs.Parts.{numbers_of_parts, parts_after, parts_of};
ghost use Rattle.fx_book.specs.Reading.{IsReading};
ghost use Rattle.fx_book.specs.Versions.{most_factors_in};
ghost use Rattle.fx_table_book.specs.Tables.{IsBase, IsKey, IsProper};
ghost use Rattle.fx_table_book.specs.Texts.{
  at_line,
  base_from,
  base_of,
  is_base,
  is_count,
  key_of,
  order_by,
  order_from,
  pattern_of,
  pattern_within,
  size_from,
  size_of,
};

use crate::base::Base;
use crate::line::numbers_after;
use crate::order::Order;
use fx_base::NoMemory;
use fx_book::{BookFault, BookStop, FaultKind, is_word, next_stop, number};
use fx_vectors::{MOST_FACTORS, MOST_FACTORS_OF_MANY_LEVELS, Pattern};
use std::alloc::Global;

/// The base of line 2: a word and five numbers.
pub(crate) fn base_of(line: &[u8]) -> Result<Base, FaultKind>
    ensures base { result ≡ base_of (parts_of line.now) }
    ensures valid { IfOk result IsBase }
    ensures proper { IfOk result IsProper }
{
    let end = next_stop(line, 0, b' ');
    if !is_word(&line[..end], b"base") {
        return Err(FaultKind::Form);
    }
    match numbers_after(5, line, end) {
        None => Err(FaultKind::Form),
        Some(numbers) => base_from(numbers.as_slice()),
    }
}

/// The base of five numbers, if it is within the limits and proper.
fn base_from(numbers: &[u128]) -> Result<Base, FaultKind>
    requires { length numbers.now ≡ 5 }
    ensures base { result ≡ base_from (Some numbers.now) }
    ensures valid { IfOk result IsBase }
    ensures proper { IfOk result IsProper }
{
    let q = numbers[0];
    let m = numbers[1];
    let h = numbers[2];
    let w = numbers[3];
    let n = numbers[4];
    if is_base(q, m, h, w, n) {
        Ok(Base {
            q: q as u8,
            m: m as u8,
            h: h as u8,
            w: w as u8,
            n: n as u8,
        })
    } else {
        Err(FaultKind::Range)
    }
}

/// The base of line 2 of the first version: a word and the four numbers of a shape.
pub(crate) fn size_of(line: &[u8]) -> Result<Base, FaultKind>
    ensures base { result ≡ size_of (parts_of line.now) }
    ensures valid { IfOk result IsBase }
    ensures proper { IfOk result IsProper }
{
    let end = next_stop(line, 0, b' ');
    if !is_word(&line[..end], b"size") {
        return Err(FaultKind::Form);
    }
    match numbers_after(4, line, end) {
        None => Err(FaultKind::Form),
        Some(numbers) => size_from(numbers.as_slice()),
    }
}

/// The base of the numbers of a shape, if it has no block factors.
fn size_from(numbers: &[u128]) -> Result<Base, FaultKind>
    requires { length numbers.now ≡ 4 }
    ensures base { result ≡ size_from (Some numbers.now) }
    ensures valid { IfOk result IsBase }
    ensures proper { IfOk result IsProper }
{
    let q = numbers[0];
    let m = numbers[1];
    let n = numbers[2];
    if numbers[3] == 0 && is_base(q, m, 0, 0, n) {
        Ok(Base {
            q: q as u8,
            m: m as u8,
            h: 0,
            w: 0,
            n: n as u8,
        })
    } else {
        Err(FaultKind::Range)
    }
}

/// Whether these are the numbers of a base within the limits that is proper.
fn is_base(q: u128, m: u128, h: u128, w: u128, n: u128) -> bool
    ensures { result ≡ is_base (record { q = q; m = m; h = h; w = w; n = n }) }
{
    if w > MOST_FACTORS as u128 {
        return false;
    }
    if n > MOST_FACTORS as u128 {
        return false;
    }
    is_shape(q, m, w + n)
        && has_few_words(q, m, w + n)
        && is_proper(m, h, w, n)
        && (w == 0 || 0 < h)
}

/// Whether there are designs of so many levels, run indexes and factors.
fn is_shape(q: u128, m: u128, s: u128) -> bool
    ensures { result ≡ is_shape Second q m s 0 }
{
    is_order(q) && 1 <= m && m <= 10 && has_few_runs(q, m) && 1 <= s && s <= most_factors(q)
}

fn is_order(q: u128) -> bool
    ensures { result ≡ is_order q }
{
    q == 2 || q == 3 || q == 4 || q == 5 || q == 7 || q == 8 || q == 9
}

/// Whether there are at most 1,024 runs.
fn has_few_runs(q: u128, m: u128) -> bool
    requires order { is_order q ≡ true }
    requires indexes { m ≤ 10 }
    ensures { result ≡ nat_le (q ^ m) 1024 }
{
    q.pow(m as u32) <= 1024
}

/// The most factors of q levels.
fn most_factors(q: u128) -> u128
    ensures { result ≡ most_factors_in Second q }
{
    if q <= 3 {
        MOST_FACTORS as u128
    } else {
        MOST_FACTORS_OF_MANY_LEVELS as u128
    }
}

/// Whether there are at most 2^120 vectors over the factors.
fn has_few_words(q: u128, m: u128, s: u128) -> bool
    requires { is_shape Second q m s 0 ≡ true }
    ensures { result ≡ nat_le (q ^ s) (2 ^ 120) }
{
    q.pow(s as u32) <= MOST_WORDS
}

const MOST_WORDS: u128 = 1 << 120;

/// Whether the other factors can span what the base space lacks, and the whole-plot factors, if any, the base space.
fn is_proper(m: u128, h: u128, w: u128, n: u128) -> bool
    requires indexes { m ≤ 10 }
    requires factors { n ≤ 63 }
    ensures { result ≡ (nat_le h m && (nat_le m (h + n) && ((w == 0) || nat_le h w))) }
{
    h <= m && m <= h + n && (w == 0 || h <= w)
}

/// The order of line 3: a word and a name.
pub(crate) fn order_from(line: &[u8]) -> Result<Order, FaultKind>
    ensures { result ≡ order_from (parts_of line.now) }
{
    let end = next_stop(line, 0, b' ');
    if end == line.len() {
        return Err(FaultKind::Form);
    }
    let at = end + 1;
    let last = next_stop(line, at, b' ');
    if last < line.len() {
        return Err(FaultKind::Form);
    }
    if !is_word(&line[..end], b"order") {
        return Err(FaultKind::Form);
    }
    order_by(&line[at..last])
}

/// The order of a name.
fn order_by(name: &[u8]) -> Result<Order, FaultKind>
    ensures { result ≡ order_by name.now }
{
    if is_word(name, b"FF") {
        return Ok(Order::FactorsFirst);
    }
    if is_word(name, b"W1") {
        return Ok(Order::ChengWuFirst);
    }
    if is_word(name, b"W2") {
        return Ok(Order::ChengWuSecond);
    }
    if is_word(name, b"SCF") {
        return Ok(Order::SitterChenFeder);
    }
    if is_word(name, b"CLEAR") {
        return Ok(Order::MostClear);
    }
    Err(FaultKind::Range)
}

/// The key of line 4, under an order of so many entries.
///
/// # Errors
///
/// `Fault`, that of line 4, and `NoMemory`.
pub(crate) fn key_of(
    alloc: Global,
    base: Base,
    count: usize,
    line: &[u8],
) -> Result<Option<Pattern>, BookStop>
    requires { IsBase base }
    ensures read { IsReading (at_line 4 (key_of base.q count line.now)) result }
    ensures valid { IfOk result (IsKey base.q count) }
{
    if is_word(line, b"key none") {
        return Ok(None);
    }
    let end = next_stop(line, 0, b' ');
    if !is_word(&line[..end], b"key") {
        return Err(in_key(FaultKind::Form));
    }
    match numbers_in(alloc, line, end)? {
        None => Err(in_key(FaultKind::Form)),
        Some(key) => {
            if key.len() != count {
                return Err(in_key(FaultKind::Form));
            }
            if are_counts(base.q, key.as_slice()) {
                Ok(Some(key))
            } else {
                Err(in_key(FaultKind::Range))
            }
        }
    }
}

/// The key of line 4 of the first version, under an order of so many entries.
///
/// # Errors
///
/// `Fault`, that of line 4, and `NoMemory`.
pub(crate) fn pattern_of(
    alloc: Global,
    base: Base,
    count: usize,
    line: &[u8],
) -> Result<Option<Pattern>, BookStop>
    requires { IsBase base }
    ensures read { IsReading (at_line 4 (pattern_of base.q count line.now)) result }
    ensures valid { IfOk result (IsKey base.q count) }
{
    if is_word(line, b"pattern none") {
        return Ok(None);
    }
    let end = next_stop(line, 0, b' ');
    if !is_word(&line[..end], b"pattern") {
        return Err(in_key(FaultKind::Form));
    }
    match numbers_in(alloc, line, end)? {
        None => Err(in_key(FaultKind::Form)),
        Some(pattern) => {
            if pattern.len() < 2 {
                return Err(in_key(FaultKind::Form));
            }
            if pattern.len() - 2 != count {
                return Err(in_key(FaultKind::Form));
            }
            pattern_within(alloc, base, pattern.as_slice())
        }
    }
}

/// The key of a pattern without words of one factor and of two.
fn pattern_within(alloc: Global, base: Base, pattern: &[u128]) -> Result<Option<Pattern>, BookStop>
    requires base { IsBase base }
    requires long { 2 ≤ length pattern.now }
    ensures read { IsReading (at_line 4 (pattern_within base.q (Some pattern.now))) result }
    ensures valid { IfOk result (IsKey base.q (length pattern.now - 2)) }
{
    let key = &pattern[2..];
    if pattern[0] == 0 && pattern[1] == 0 && are_counts(base.q, key) {
        Ok(Some(Pattern::from_slice(alloc, key)?))
    } else {
        Err(in_key(FaultKind::Range))
    }
}

/// The fault in line 4.
fn in_key(kind: FaultKind) -> BookStop
    ensures { result ≡ Fault (fault kind 4) }
{
    BookStop::Fault(BookFault { kind, line: 4 })
}

/// The numbers of the parts after `end`.
fn numbers_in(alloc: Global, line: &[u8], end: usize) -> Result<Option<Pattern>, NoMemory>
    requires { end ≤ length line.now }
    ensures { IfOk result (λ numbers. numbers ≡ numbers_of_parts 0 (2 ^ 128) (parts_after end line.now)) }
{
    let mut numbers = Pattern::new(alloc);
    let mut end = end;
    while end < line.len() {
        let at = end + 1;
        end = next_stop(line, at, b' ');
        match number(&line[at..end]) {
            None => return Ok(None),
            Some(n) => numbers.push(n)?,
        }
    }
    Ok(Some(numbers))
}

/// Whether the entries of a key are within their range.
fn are_counts(q: u8, key: &[u128]) -> bool
    requires { 1 ≤ q }
    ensures { result ≡ list_all (is_count q) key.now }
{
    for a in key {
        if !is_count(q, *a) {
            return false;
        }
    }
    true
}

/// Whether an entry of a key is below 2^127 where a word and its multiples count each.
fn is_count(q: u8, a: u128) -> bool
    requires { 1 ≤ q }
    ensures { result ≡ is_count q a }
{
    u128::from(q - 1).saturating_mul(a) < 1 << 127
}
