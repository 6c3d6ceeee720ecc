// `rest` is what follows NVALS or CVALS, `= ( value ..`: the first value has index 2.

ghost use Rattle.std.specs.Prelude.{◌≡◌, ◌∷◌, IfOk, IfErr};
ghost use Rattle.fx_text.specs.Refusals.{IsRefused};
ghost use Rattle.fx_outputs.specs.Values.{checked_values, inside, value_of, values_if_any, values_of};

use fx_base::{Bytes, NoMemory};
use fx_language::{Symbol, code};
use fx_text::{Lexeme, Names, ParseStop, Phrase};
use std::alloc::Global;

/// The values after `word`, which is NVALS or CVALS, where they are to be so many.
///
/// # Errors
///
/// E17 at `word` for another number of them, or where none is wanted, and `NoMemory`.
pub fn counted_values(
    alloc: Global,
    wanted: Option<u32>,
    word: &Lexeme<'_>,
    rest: &Phrase<'_>,
) -> Result<Names, ParseStop>
    ensures ok { IfOk result (λ values. checked_values wanted word.now (values_of rest.now) ≡ Ok values) }
    ensures refused { IfErr result (IsRefused (checked_values wanted word.now (values_of rest.now))) }
{
    match wanted {
        None => Err(ParseStop::Refused(word.refused(code::WRONG_NUMBER_OF_VALUES))),
        Some(wanted) => {
            let values = values(alloc, rest)?;
            if values.len() == wanted as usize {
                Ok(values)
            } else {
                Err(ParseStop::Refused(word.refused(code::WRONG_NUMBER_OF_VALUES)))
            }
        }
    }
}

/// The values of a column, which are what follows its name, if there are any.
///
/// # Errors
///
/// E17 at NVALS or CVALS, as of `counted_values`, and `NoMemory`.
pub fn values_if_any(
    alloc: Global,
    wanted: Option<u32>,
    values: &Phrase<'_>,
) -> Result<Names, ParseStop>
    ensures ok { IfOk result (λ all. values_if_any wanted values.now ≡ Ok all) }
    ensures refused { IfErr result (IsRefused (values_if_any wanted values.now)) }
{
    let lexemes = values.lexemes();
    if lexemes.is_empty() {
        return Ok(Names::new(alloc));
    }
    counted_values(alloc, wanted, &lexemes[0], &values.from(1))
}

/// The values after NVALS or CVALS.
fn values(alloc: Global, rest: &Phrase<'_>) -> Result<Names, NoMemory>
    ensures { IfOk result (λ values. values ≡ values_of rest.now) }
{
    let mut values = Names::new(alloc);
    let mut signed = false;
    for w in rest.from(2).lexemes() {
        if w.is(Symbol::Close) {
            return Ok(values);
        }
        if w.is(Symbol::Minus) {
            signed = true;
        } else {
            values.push(value(alloc, signed, w)?)?;
            signed = false;
        }
    }
    Ok(values)
}

/// The value of a number or a quoted text, with a sign in front or not.
fn value(alloc: Global, signed: bool, w: &Lexeme<'_>) -> Result<Bytes, NoMemory>
    ensures { IfOk result (λ value. value ≡ value_of signed w.now) }
{
    if w.is(Symbol::Quoted) {
        return inside(alloc, w.text());
    }
    if signed {
        return with_sign(alloc, w.text());
    }
    Bytes::from_slice(alloc, w.text())
}

/// The inside of a quoted text, each doubled quote once.
fn inside(alloc: Global, text: &[u8]) -> Result<Bytes, NoMemory>
    ensures { IfOk result (λ bytes. bytes ≡ inside text.now) }
{
    let mut bytes = Bytes::new(alloc);
    if text.is_empty() {
        return Ok(bytes);
    }
    let quote = text[0];
    let mut met = false;
    for b in &text[1..] {
        if *b == quote && !met {
            met = true;
        } else {
            bytes.push(*b)?;
            met = false;
        }
    }
    Ok(bytes)
}

/// The text after a `-`.
fn with_sign(alloc: Global, text: &[u8]) -> Result<Bytes, NoMemory>
    ensures { IfOk result (λ bytes. bytes ≡ 45 ∷ text.now) }
{
    let mut bytes = Bytes::new(alloc);
    bytes.push(b'-')?;
    bytes.extend_from_slice(text)?;
    Ok(bytes)
}
