ghost use Rattle.std.specs.Prelude.{◌≡◌, ◌≤◌, ◌+◌, ◌^◌, ◌++◌, Ok, false, decimal, not, length, IfOk, IfErr, OnOk, MatchOption, None, Some};
ghost use Rattle.std.specs.List.{IsDistinct, prefix_len};
ghost use Rattle.fx_language.specs.declared.symbol.Symbol.TheVariants.{Slash};
ghost use Rattle.fx_language.specs.Symbols.{is};
ghost use Rattle.fx_text.specs.Names.{is_same_name};
ghost use Rattle.fx_text.specs.Refusals.{IsRefused};
ghost use Rattle.fx_text.specs.Ranges.{numbered, stem};
ghost use Rattle.fx_settings.specs.Items.{item_of};
ghost use Rattle.fx_settings.specs.Factors.{added, are_known, names_of_factors, known_at};

use crate::item::{NameItem, item_behind};
use fx_base::{Bytes, NoMemory};
use fx_language::{Symbol, code};
use fx_text::{
    Lexeme, Names, ParseStop, Phrase, is_range, number_at_end, numbered_name, place_of, stem,
};
use std::alloc::Global;

/// The names of a step's factors by its FACTORS statement, where at most `limit` may be.
///
/// # Errors
///
/// At the first item with one of these, in this order: E30, its range is not regular; E10, there are
/// more than `limit` factors; E5, a name is repeated. And `NoMemory`.
pub fn factors_of(alloc: Global, statement: &Phrase<'_>, limit: usize) -> Result<Names, ParseStop>
    ensures names { IfOk result (λ names. names_of_factors limit statement.now ≡ Ok names) }
    ensures refused { IfErr result (IsRefused (names_of_factors limit statement.now)) }
    ensures bound { IfOk result (λ names. length names ≤ limit) }
    ensures distinct { IfOk result (IsDistinct is_same_name) }
{
    let mut names = Names::new(alloc);
    let lexemes = statement.before(Symbol::Slash).lexemes();
    for (i, before) in lexemes.iter().enumerate() {
        if let Some(item) = item_behind(before, &lexemes[i + 1..]) {
            add(alloc, &mut names, limit, &item)?;
        }
    }
    Ok(names)
}

/// Adds the names of an item.
fn add(alloc: Global, names: &mut Names, limit: usize, item: &NameItem<'_>) -> Result<(), ParseStop>
    requires { length names.old ≤ limit }
    ensures added { OnOk result (added limit names.old item.now ≡ Ok names.new) }
    ensures refused { IfErr result (IsRefused (added limit names.old item.now)) }
    ensures bound { OnOk result (length names.new ≤ limit) }
{
    match item.last {
        None => add_name(alloc, names, limit, item.first),
        Some(last) => add_range(alloc, names, limit, item.first, last),
    }
}

fn add_name(
    alloc: Global,
    names: &mut Names,
    limit: usize,
    name: &Lexeme<'_>,
) -> Result<(), ParseStop>
    requires { length names.old ≤ limit }
    ensures added { OnOk result (added limit names.old (item_of name.now None) ≡ Ok names.new) }
    ensures refused { IfErr result (IsRefused (added limit names.old (item_of name.now None))) }
    ensures bound { OnOk result (length names.new ≤ limit) }
{
    if limit <= names.len() {
        return Err(ParseStop::Refused(name.refused(code::TOO_MANY_FACTORS)));
    }
    if place_of(name.text(), names.as_slice()).is_some() {
        return Err(ParseStop::Refused(name.refused(code::REPEATED_NAME)));
    }
    names.push(Bytes::from_slice(alloc, name.text())?)?;
    Ok(())
}

fn add_range(
    alloc: Global,
    names: &mut Names,
    limit: usize,
    first: &Lexeme<'_>,
    last: &Lexeme<'_>,
) -> Result<(), ParseStop>
    requires { length names.old ≤ limit }
    ensures added { OnOk result
        (added limit names.old (item_of first.now (Some last.now)) ≡ Ok names.new) }
    ensures refused { IfErr result
        (IsRefused (added limit names.old (item_of first.now (Some last.now)))) }
    ensures bound { OnOk result (length names.new ≤ limit) }
{
    let (low, high) = (first.text(), last.text());
    if !is_range(low, high) {
        return Err(ParseStop::Refused(first.refused(code::IRREGULAR_RANGE)));
    }
    let from = number_at_end(low);
    let upto = number_at_end(high);
    if (limit - names.len()) as u128 <= upto - from {
        return Err(ParseStop::Refused(first.refused(code::TOO_MANY_FACTORS)));
    }
    add_numbered(alloc, names, first, from, (upto - from + 1) as usize)
}

/// Adds the stem of a name with each of `count` numbers.
fn add_numbered(
    alloc: Global,
    names: &mut Names,
    first: &Lexeme<'_>,
    from: u128,
    count: usize,
) -> Result<(), ParseStop>
    requires { from + count ≤ 2 ^ 128 }
    ensures added { OnOk result
        (names.new ≡ names.old ++ numbered (stem first.now.text) from count) }
    ensures new { OnOk result
        (are_known (numbered (stem first.now.text) from count) names.old ≡ false) }
    ensures known { IfErr result
        (IsRefused
        (known_at first.now
        (are_known (numbered (stem first.now.text) from count) names.old))) }
{
    let known = names.len();
    for i in 0..count {
        let name = numbered_name(alloc, stem(first.text()), from + i as u128)?;
        if place_of(name.as_slice(), &names.as_slice()[..known]).is_some() {
            return Err(ParseStop::Refused(first.refused(code::REPEATED_NAME)));
        }
        names.push(name)?;
    }
    Ok(())
}
