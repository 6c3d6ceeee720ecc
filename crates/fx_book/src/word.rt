ghost use Rattle.std.specs.Prelude.{◌≡◌, ◌<◌, ◌≤◌, ◌+◌, ◌-◌, ◌*◌, ◌^◌, take, codes, length, slice_index, slice_index_or, IfOk, IfSome, IsTrue, Ok};
ghost use Rattle.std.specs.List.{AllByRecursion};
ghost use Rattle.std.specs.Str.{bytes_eq};
ghost use Rattle.fx_vectors.specs.Shape.{IsShape, dimensions_of};
ghost use Rattle.fx_vectors.specs.declared.shape.TheConstants.{MOST_FACTORS};
ghost use Rattle.fx_book.specs.Parts.{split, parts_after};
ghost use Rattle.fx_book.specs.Words.{
  word_written,
  vector_of,
  is_long_word,
  is_short,
  is_entry_after,
  by_number,
  by_entries,
  both,
  entry_from,
  entries_of_parts,
};
ghost use Rattle.fx_book.specs.declared.version.Version.TheVariants.{First, Second};
ghost use Rattle.fx_book.specs.Placing.{placed, placing_of, AreSound, IsEntryAfter};

use crate::fault::FaultKind;
use crate::part::{next_stop, number};
use crate::version::Version;
use fx_vectors::{Shape, Vector};

/// The number of the word that the parts after `end` write. `words` is the number of vectors over all
/// rows.
///
/// # Errors
///
/// `Form` where the parts are of no word's form, `Range` where a number is out of its range.
pub(crate) fn word(
    version: Version,
    shape: Shape,
    words: u128,
    line: &[u8],
    end: usize,
) -> Result<u128, FaultKind>
    requires shaped { IsShape shape }
    requires words { words ≡ shape.q ^ (shape.s + shape.t) }
    requires more { end < length line.now }
    ensures word { result ≡ word_written version (dimensions_of shape) (parts_after end line.now) }
    ensures within { IfOk result (λ word. (0 < word) × (word < shape.q ^ (shape.s + shape.t))) }
{
    match version {
        Version::First => first_word(shape, words, line, end),
        Version::Second => second_word(shape, words, line, end),
    }
}

/// A word of the first version: its number.
fn first_word(shape: Shape, words: u128, line: &[u8], end: usize) -> Result<u128, FaultKind>
    requires words { words ≡ shape.q ^ (shape.s + shape.t) }
    requires more { end < length line.now }
    ensures word { result ≡ word_written First (dimensions_of shape) (parts_after end line.now) }
    ensures within { IfOk result (λ word. (0 < word) × (word < shape.q ^ (shape.s + shape.t))) }
{
    let at = end + 1;
    let next = next_stop(line, at, b' ');
    if next < line.len() {
        return Err(FaultKind::Form);
    }
    match number(&line[at..next]) {
        None => Err(FaultKind::Form),
        Some(word) => {
            if 0 < word && word < words {
                Ok(word)
            } else {
                Err(FaultKind::Range)
            }
        }
    }
}

/// A word of the second version: its nonzero entries, or its number after a `#` where they are more
/// than eight.
fn second_word(shape: Shape, words: u128, line: &[u8], end: usize) -> Result<u128, FaultKind>
    requires shaped { IsShape shape }
    requires words { words ≡ shape.q ^ (shape.s + shape.t) }
    requires more { end < length line.now }
    ensures word { result ≡ word_written Second (dimensions_of shape) (parts_after end line.now) }
    ensures within { IfOk result (λ word. (0 < word) × (word < shape.q ^ (shape.s + shape.t))) }
{
    if let Some(word) = plain_word(shape, line, end) {
        return Ok(word);
    }
    let at = end + 1;
    let next = next_stop(line, at, b' ');
    if next < line.len() {
        return placed_word(shape, line, end);
    }
    let part = &line[at..next];
    if is_numbered(part) {
        long_word(shape, words, number(&part[1..]))
    } else {
        placed_word(shape, line, end)
    }
}

/// Whether a part begins with a `#`.
fn is_numbered(part: &[u8]) -> bool
    ensures read { result ≡ bytes_eq (take 1 part.now) (codes "#") }
    ensures some { IsTrue result → 0 < length part.now }
{
    !part.is_empty() && part[0] == b'#'
}

/// The word of this number, which has more than eight nonzero entries.
fn long_word(shape: Shape, words: u128, word: Option<u128>) -> Result<u128, FaultKind>
    requires shaped { IsShape shape }
    requires words { words ≡ shape.q ^ (shape.s + shape.t) }
    ensures word { result ≡ by_number (is_long_word (dimensions_of shape)) word }
    ensures within { IfOk result (λ word. (0 < word) × (word < shape.q ^ (shape.s + shape.t))) }
{
    match word {
        None => Err(FaultKind::Form),
        Some(word) => {
            if 0 < word && word < words && !is_short(shape, word) {
                Ok(word)
            } else {
                Err(FaultKind::Range)
            }
        }
    }
}

/// Whether a word has at most eight nonzero entries.
pub(crate) fn is_short(shape: Shape, word: u128) -> bool
    requires shaped { IsShape shape }
    requires below { word < shape.q ^ (shape.s + shape.t) }
    ensures { result ≡ is_short (dimensions_of shape) word }
{
    vector_of(shape, word).weight() <= SHORT
}

/// The vector over all rows with this number; of one that no vector has, its lowest digits.
pub(crate) fn vector_of(shape: Shape, word: u128) -> Vector
    requires { IsShape shape }
    ensures vector { result ≡ vector_of (dimensions_of shape) word }
    ensures codes { AllByRecursion (λ c. c < 10) result }
    ensures len { length result ≤ MOST_FACTORS }
{
    Vector::of_number(shape.field(), shape.rows(), word)
}

/// A word of at most so many nonzero entries is written by them.
pub(crate) const SHORT: usize = 8;

/// What the entries of a word that were read so far come to.
#[derive(Clone, Copy)]
pub(crate) struct Placing {
    /// The place of the last one, 0 before the first.
    pub(crate) last: u128,
    /// How many more there may be.
    pub(crate) room: u8,
    /// The number of the vector with these entries.
    pub(crate) number: u128,
    /// Whether there may be such entries.
    pub(crate) fits: bool,
}

/// The word of the entries that the parts after `end` write.
fn placed_word(shape: Shape, line: &[u8], end: usize) -> Result<u128, FaultKind>
    requires shaped { IsShape shape }
    requires more { end < length line.now }
    ensures word { result ≡ by_entries (dimensions_of shape) (entries_of_parts (parts_after end line.now)) }
    ensures within { IfOk result (λ word. (0 < word) × (word < shape.q ^ (shape.s + shape.t))) }
{
    let mut placing = Placing {
        last: 0,
        room: 8,
        number: 0,
        fits: true,
    };
    let mut end = end;
    while end < line.len() {
        let at = end + 1;
        end = next_stop(line, at, b' ');
        match entry_from(&line[at..end]) {
            None => return Err(FaultKind::Form),
            Some(entry) => placing = placed(shape, placing, entry),
        }
    }
    if placing.fits {
        Ok(placing.number)
    } else {
        Err(FaultKind::Range)
    }
}

/// The place and the code of a part: two numbers, and a colon between them.
fn entry_from(part: &[u8]) -> Option<(u128, u128)>
    ensures { result ≡ entry_from (split 58 part.now) }
{
    let colon = next_stop(part, 0, b':');
    if colon == part.len() {
        return None;
    }
    let end = next_stop(part, colon + 1, b':');
    if end < part.len() {
        return None;
    }
    both(number(&part[..colon]), number(&part[colon + 1..end]))
}

fn both(place: Option<u128>, code: Option<u128>) -> Option<(u128, u128)>
    ensures { result ≡ both place code }
{
    Some((place?, code?))
}

/// With one entry more.
fn placed(shape: Shape, placing: Placing, entry: (u128, u128)) -> Placing
    requires shaped { IsShape shape }
    requires sound { AreSound (dimensions_of shape) placing }
    ensures placed { result ≡ placed (dimensions_of shape) placing entry }
    ensures sound { AreSound (dimensions_of shape) result }
{
    if placing.fits && 0 < placing.room && is_entry_after(shape, placing.last, entry) {
        let power = u128::from(shape.q).pow(entry.0 as u32 - 1);
        Placing {
            last: entry.0,
            room: placing.room - 1,
            number: placing.number + entry.1 * power,
            fits: true,
        }
    } else {
        Placing {
            last: placing.last,
            room: placing.room,
            number: placing.number,
            fits: false,
        }
    }
}

/// Whether this is a nonzero code at a place of a row after the last.
fn is_entry_after(shape: Shape, last: u128, entry: (u128, u128)) -> bool
    requires { IsShape shape }
    ensures { result ≡ is_entry_after (dimensions_of shape) last entry }
{
    last < entry.0
        && entry.0 <= u128::from(shape.s) + u128::from(shape.t)
        && 0 < entry.1
        && entry.1 < u128::from(shape.q)
}

/// The entries of a word that were read so far, all of them within their limits.
#[derive(Clone, Copy)]
pub(crate) struct Plain {
    /// The place of the last one, 0 before the first.
    pub(crate) last: u8,
    /// How many more there may be.
    pub(crate) room: u8,
    /// The number of the vector with these entries.
    pub(crate) number: u128,
}

/// A part that is an entry.
#[derive(Clone, Copy)]
pub(crate) struct PlainPart {
    pub(crate) place: u8,
    pub(crate) code: u8,
    /// Where it ends: the index of the blank after it, or the length of the line.
    pub(crate) end: usize,
}

/// The word that the parts after `end` write by entries within their limits, read in one pass; None of
/// all others, whatever they are.
fn plain_word(shape: Shape, line: &[u8], end: usize) -> Option<u128>
    requires shaped { IsShape shape }
    requires more { end < length line.now }
    ensures word { IfSome result (λ word. by_entries (dimensions_of shape) (entries_of_parts (parts_after end line.now)) ≡ Ok word) }
    ensures within { IfSome result (λ word. (0 < word) × (word < shape.q ^ (shape.s + shape.t))) }
{
    let mut plain = Plain {
        last: 0,
        room: 8,
        number: 0,
    };
    let mut end = end;
    while end < line.len() {
        let part = plain_part(line, end)?;
        plain = with_part(shape, plain, part.place, part.code)?;
        end = part.end;
    }
    Some(plain.number)
}

/// With one entry more.
fn with_part(shape: Shape, plain: Plain, place: u8, code: u8) -> Option<Plain>
    requires shaped { IsShape shape }
    requires sound { AreSound (dimensions_of shape) (placing_of plain) }
    ensures placed { IfSome result (λ next. placing_of next ≡ placed (dimensions_of shape) (placing_of plain) (place, code)) }
    ensures sound { IfSome result (λ next. AreSound (dimensions_of shape) (placing_of next)) }
{
    if plain.room == 0
        || place <= plain.last
        || u16::from(shape.s) + u16::from(shape.t) < u16::from(place)
    {
        return None;
    }
    if code == 0 || shape.q <= code {
        return None;
    }
    Some(Plain {
        last: place,
        room: plain.room - 1,
        number: plain.number + term(shape.q, place, code),
    })
}

/// What a code at a place adds to the number of a vector. At two levels a shift takes less time.
fn term(q: u8, place: u8, code: u8) -> u128
    requires place { (0 < place) × (place < 128) }
    requires code { (0 < code) × (code < q) }
    requires fits { code * q ^ (place - 1) < 2 ^ 127 }
    ensures { result ≡ code * q ^ (place - 1) }
{
    if q == 2 {
        1 << (place - 1)
    } else {
        u128::from(code) * u128::from(q).pow(u32::from(place) - 1)
    }
}

/// The first part after `end`, where it is one or two digits, a colon and a digit, as all entries within
/// their limits are.
fn plain_part(line: &[u8], end: usize) -> Option<PlainPart>
    requires { end < length line.now }
    ensures { IfSome result (IsEntryAfter line.now end) }
{
    let at = end + 1;
    let first = digit_at(line, at)?;
    if byte_at(line, at + 1) == b':' {
        let code = code_at(line, at + 2)?;
        return Some(PlainPart {
            place: first,
            code,
            end: at + 3,
        });
    }
    let second = digit_at(line, at + 1)?;
    if first == 0 || byte_at(line, at + 2) != b':' {
        return None;
    }
    let code = code_at(line, at + 3)?;
    Some(PlainPart {
        place: first * 10 + second,
        code,
        end: at + 4,
    })
}

/// The digit that ends a part here, where there is one.
fn code_at(line: &[u8], at: usize) -> Option<u8>
    requires { at ≤ length line.now + 3 }
    ensures digit { IfSome result (λ code. (at < length line.now) × (slice_index line.now at ≡ 48 + code) × (code ≤ 9)) }
    ensures stop { IfSome result (λ code. at + 1 < length line.now → slice_index line.now (at + 1) ≡ 32) }
{
    let code = digit_at(line, at)?;
    if at + 1 < line.len() && line[at + 1] != b' ' {
        return None;
    }
    Some(code)
}

/// The value of the digit here, where there is one.
fn digit_at(line: &[u8], at: usize) -> Option<u8>
    ensures { IfSome result (λ code. (at < length line.now) × (slice_index line.now at ≡ 48 + code) × (code ≤ 9)) }
{
    let byte = byte_at(line, at);
    if b'0' <= byte && byte <= b'9' {
        Some(byte - b'0')
    } else {
        None
    }
}

/// The byte here, or 0 past the end.
fn byte_at(line: &[u8], at: usize) -> u8
    ensures { result ≡ slice_index_or line.now at 0 }
{
    if at < line.len() { line[at] } else { 0 }
}
