ghost use Rattle.std.specs.Prelude.{◌≡◌, ◌<◌, ◌≤◌, ◌+◌, [], if◌then◌else◌, IfErr, IfOk, length, slice_index};
ghost use Rattle.fx_rules.specs.declared.reading.Stage.TheVariants as stage;
ghost use Rattle.fx_vectors.specs.Shape.{IsShape};
ghost use Rattle.fx_rules.specs.Laws.{IsOfRules};
ghost use Rattle.fx_rules.specs.Building.{nothing_built};
ghost use Rattle.fx_rules.specs.Reading.{at_stage, ended, formed_at, goes_on, is_formed, is_name_byte, is_open, matrix_of_rules};
ghost use Rattle.fx_rules.specs.Reading.{placed, read_on, stepped, worded};

use crate::building::Building;
use crate::parts::is_word_byte;
use crate::problem::{Problem, RulesFault};
use crate::signs::{end_at, sign_at};
use crate::words::word_at;
use fx_text::Names;
use fx_vectors::{Matrix, Shape};

/// What was read last.
#[derive(Clone, Copy)]
pub(crate) enum Stage {
    /// Nothing.
    Head,
    /// `rules`.
    Front,
    /// A whole rule.
    Between,
    /// A left side.
    Equals,
    /// `=`.
    First,
    /// A factor of a product.
    Factor,
    /// `*`.
    Next,
    /// `^`.
    Power,
    /// A power.
    Powered,
    /// `0`.
    Whole,
    /// `run`.
    RunFactor,
    /// `run factor`.
    RunNumber,
    /// `none`.
    Nothing,
}

/// What was read, and what it gives.
#[derive(Drop)]
pub(crate) struct Reading {
    pub(crate) stage: Stage,
    pub(crate) building: Building,
}

/// The matrix that a text of rules gives for a design of this shape and factors of these names.
///
/// # Errors
///
/// The first thing that is wrong with the text.
pub fn read_rules(shape: Shape, factors: &Names, text: &[u8]) -> Result<Matrix, RulesFault>
    requires { IsShape shape }
    ensures read { result ≡ matrix_of_rules shape factors.now text.now }
    ensures given { IfOk result (IsOfRules shape) }
    ensures inside { IfErr result (λ fault. fault.at ≤ length text.now) }
{
    let building = read_text(shape, factors, text)?;
    Ok(building.into_matrix())
}

/// What is built when the text ends.
fn read_text(shape: Shape, factors: &Names, text: &[u8]) -> Result<Building, RulesFault>
    requires { IsShape shape }
    ensures { result
        ≡ read_on factors.now [] 0 text.now (at_stage stage.Head (nothing_built shape)) }
{
    let mut reading = Reading {
        stage: Stage::Head,
        building: Building::new(shape),
    };
    let mut from = 0;
    for i in 0..text.len() {
        let b = text[i];
        if !goes_on(&text[from..i], b) {
            reading = stepped(reading, factors, &text[from..i], i, b)?;
            from = begin_at(text, i);
        }
    }
    ended(reading, factors, &text[from..], text.len())
}

/// Whether the byte goes on with this word.
fn goes_on(word: &[u8], b: u8) -> bool
    ensures { result ≡ goes_on word.now b }
{
    if word.is_empty() {
        return false;
    }
    if word[0] == b'[' {
        return is_open(word) && (b.is_ascii_digit() || b == b']');
    }
    is_word_byte(word[0]) && is_word_byte(b)
}

/// Whether the last bracket of a word is open.
fn is_open(word: &[u8]) -> bool
    requires { 0 < length word.now }
    ensures { result ≡ is_open word.now }
{
    word[word.len() - 1] != b']'
}

/// Whether a word is a number in brackets, or of letters, digits and `_`.
fn is_formed(word: &[u8]) -> bool
    ensures { result ≡ is_formed word.now }
{
    if word.is_empty() {
        return false;
    }
    if word[0] == b'[' {
        return 2 < word.len() && !is_open(word);
    }
    is_word_byte(word[0])
}

/// Where the next word may begin, from the byte at `i`, which does not go on with the last.
fn begin_at(text: &[u8], i: usize) -> usize
    requires { i < length text.now }
    ensures { result ≡ (if is_name_byte (slice_index text.now i) then i else i + 1) }
{
    if is_name_byte(text[i]) {
        return i;
    }
    i + 1
}

/// Whether the byte may be of a name.
pub(crate) fn is_name_byte(b: u8) -> bool
    ensures { result ≡ is_name_byte b }
{
    is_word_byte(b) || b == b'[' || b == b']'
}

/// After the word that ends before `at`, if any, and the byte there.
fn stepped(
    reading: Reading,
    factors: &Names,
    word: &[u8],
    at: usize,
    b: u8,
) -> Result<Reading, RulesFault>
    requires { length word.now ≤ at }
    ensures { result ≡ stepped factors.now word.now at b reading }
{
    let next = worded(reading, factors, word, at)?;
    placed(at, sign_at(next, b))
}

/// What is built when the text ends behind this word, if any.
fn ended(reading: Reading, factors: &Names, word: &[u8], at: usize) -> Result<Building, RulesFault>
    requires { length word.now ≤ at }
    ensures { result ≡ ended factors.now word.now at reading }
{
    let last = worded(reading, factors, word, at)?;
    match end_at(last.stage, last.building) {
        Ok(building) => Ok(building),
        Err(problem) => Err(RulesFault { problem, at }),
    }
}

/// After the word that ends before `at`, if any.
fn worded(reading: Reading, factors: &Names, word: &[u8], at: usize) -> Result<Reading, RulesFault>
    requires { length word.now ≤ at }
    ensures { result ≡ worded factors.now word.now at reading }
{
    if word.is_empty() {
        return Ok(reading);
    }
    placed(at - word.len(), formed_at(reading, factors, word))
}

/// After a word.
fn formed_at(reading: Reading, factors: &Names, word: &[u8]) -> Result<Reading, Problem>
    ensures { result ≡ formed_at reading.stage factors.now word.now reading.building }
{
    if is_formed(word) {
        return word_at(reading.stage, factors, word, reading.building);
    }
    Err(Problem::Form)
}

/// With the place of the problem, if there is one.
fn placed(at: usize, read: Result<Reading, Problem>) -> Result<Reading, RulesFault>
    ensures { result ≡ placed at read }
{
    match read {
        Ok(reading) => Ok(reading),
        Err(problem) => Err(RulesFault { problem, at }),
    }
}
