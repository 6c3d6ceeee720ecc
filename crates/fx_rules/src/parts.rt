ghost use Rattle.std.specs.Prelude.{◌≡◌, ◌≤◌, ◌<◌, ◌+◌, ◌++◌, ◌==◌, [], ◌∷◌, if◌then◌else◌, IfOk, OnOk, All, List, ℕ, None, Some, drop, length};
ghost use Rattle.std.specs.List.{prefix_len};
ghost use Rattle.fx_lexer.specs.Bytes.{is_white, is_word_byte};
ghost use Rattle.fx_rules.specs.Parts.{begins_rules, begins_step, begins_with_equals, behind, behind_first_word, first_word};
ghost use Rattle.fx_rules.specs.Parts.{IsWithin, is_blank, lines_from, parts_among, parts_of, word_at};

use fx_base::{NoMemory, Values};
use fx_text::is_same_name;
use std::alloc::Global;

/// Rules in a text: bytes `at` up to `end`.
#[derive(Debug, Clone, Copy)]
pub struct Part {
    /// Where the word `rules` stands.
    pub at: usize,
    /// Where the line begins that ends the part; the length of the text where there is none.
    pub end: usize,
    /// Where the word `proc` stands in that line; the length of the text where there is none.
    pub step: usize,
}

/// The parts of a text, in order.
///
/// # Errors
///
/// `NoMemory`.
pub fn parts_of(alloc: Global, text: &[u8]) -> Result<Values<Part>, NoMemory>
    ensures parts { IfOk result (λ parts. parts ≡ parts_of text.now) }
    ensures within { IfOk result (All (IsWithin (length text.now))) }
{
    let mut parts = Values::new(alloc);
    let mut begun = None;
    let mut fresh = true;
    for i in 0..text.len() {
        begun = passed(text, i, fresh, begun, &mut parts)?;
        fresh = text[i] == b'\n';
    }
    close(text, begun, &mut parts)?;
    Ok(parts)
}

/// The begin of the part that the byte after `i` is in, if any, from that of the byte at `i`. Adds a part that ends here.
fn passed(
    text: &[u8],
    i: usize,
    fresh: bool,
    begun: Option<usize>,
    parts: &mut Values<Part>,
) -> Result<Option<usize>, NoMemory>
    requires { i < length text.now }
    ensures { IfOk result (λ next. (lines : List ℕ)
        → parts.old ++ parts_among text.now begun (if fresh then i ∷ lines else lines)
        ≡ parts.new ++ parts_among text.now next lines) }
{
    if !fresh {
        return Ok(begun);
    }
    match begun {
        Some(at) => ended(text, i, at, parts),
        None => Ok(opened(text, i)),
    }
}

/// The begin of the part behind the line that begins at `i`, which is inside the part that begins at `at`. Adds that part
/// where it ends here.
fn ended(
    text: &[u8],
    i: usize,
    at: usize,
    parts: &mut Values<Part>,
) -> Result<Option<usize>, NoMemory>
    requires { i < length text.now }
    ensures { IfOk result (λ next. (lines : List ℕ)
        → parts.old ++ parts_among text.now (Some at) (i ∷ lines) ≡ parts.new ++ parts_among text.now next lines) }
{
    if begins_step(&text[i..]) {
        let step = word_at(text, i);
        parts.push(Part { at, end: i, step })?;
        return Ok(None);
    }
    Ok(Some(at))
}

/// The begin of the part behind the line that begins at `i`, which is outside of a part.
fn opened(text: &[u8], i: usize) -> Option<usize>
    requires { i < length text.now }
    ensures { (lines : List ℕ) → parts_among text.now None (i ∷ lines) ≡ parts_among text.now result lines }
{
    if begins_rules(&text[i..]) {
        return Some(word_at(text, i));
    }
    None
}

/// Adds the part that ends with the text, if any.
fn close(text: &[u8], begun: Option<usize>, parts: &mut Values<Part>) -> Result<(), NoMemory>
    ensures { OnOk result (parts.old ++ parts_among text.now begun [] ≡ parts.new) }
{
    match begun {
        Some(at) => parts.push(Part {
            at,
            end: text.len(),
            step: text.len(),
        }),
        None => Ok(()),
    }
}

/// Whether a line begins a part.
fn begins_rules(line: &[u8]) -> bool
    ensures { result ≡ begins_rules line.now }
{
    is_same_name(first_word(line), b"rules")
}

/// Whether a line begins a step.
fn begins_step(line: &[u8]) -> bool
    ensures { result ≡ begins_step line.now }
{
    is_same_name(first_word(line), b"proc") && !begins_with_equals(behind_first_word(line))
}

fn begins_with_equals(text: &[u8]) -> bool
    ensures { result ≡ begins_with_equals text.now }
{
    !text.is_empty() && text[0] == b'='
}

/// Where the first word of the line stands that begins at `i`.
fn word_at(text: &[u8], i: usize) -> usize
    requires { i < length text.now }
    ensures { result ≡ word_at text.now i }
{
    i + blanks(&text[i..])
}

/// The first word of the line that begins here.
fn first_word(line: &[u8]) -> &[u8]
    ensures { result.now ≡ first_word line.now }
{
    let words = &line[blanks(line)..];
    &words[..word_bytes(words)]
}

/// What stands behind that word and white space.
fn behind_first_word(line: &[u8]) -> &[u8]
    ensures { result.now ≡ behind_first_word line.now }
{
    let words = &line[blanks(line)..];
    let rest = &words[word_bytes(words)..];
    &rest[whites(rest)..]
}

/// How many blanks and tabs are in front.
fn blanks(text: &[u8]) -> usize
    ensures count { result ≡ prefix_len is_blank text.now }
    ensures inside { result ≤ length text.now }
{
    for i in 0..text.len() {
        if text[i] != b' ' && text[i] != b'\t' {
            return i;
        }
    }
    text.len()
}

/// How many bytes of a word are in front.
fn word_bytes(text: &[u8]) -> usize
    ensures count { result ≡ prefix_len is_word_byte text.now }
    ensures inside { result ≤ length text.now }
{
    for i in 0..text.len() {
        if !is_word_byte(text[i]) {
            return i;
        }
    }
    text.len()
}

/// How many bytes of white space are in front.
fn whites(text: &[u8]) -> usize
    ensures count { result ≡ prefix_len is_white text.now }
    ensures inside { result ≤ length text.now }
{
    for i in 0..text.len() {
        if !is_white(text[i]) {
            return i;
        }
    }
    text.len()
}

/// Whether the byte may be of a word.
pub(crate) fn is_word_byte(b: u8) -> bool
    ensures { result ≡ is_word_byte b }
{
    b.is_ascii_alphanumeric() || b == b'_'
}

/// Blank, tab, line feed or carriage return.
pub(crate) fn is_white(b: u8) -> bool
    ensures { result ≡ is_white b }
{
    b == b' ' || b == b'\t' || b == b'\n' || b == b'\r'
}
