ghost use Rattle.std.specs.Prelude.{◌≡◌, ◌≤◌, ◌+◌, ◌^◌, length, replicate, Ok, Some, None, Err, IfOk, IfErr, OnOk};
ghost use Rattle.fx_designs.specs.Vectors.{IsVector, zeros};
ghost use Rattle.fx_text.specs.Names.{place_of};
ghost use Rattle.fx_text.specs.Ranges.{numbered, stem};
ghost use Rattle.fx_text.specs.Refusals.{IsRefused};
ghost use Rattle.fx_settings.specs.Items.{items_behind, item_of};
ghost use Rattle.fx_settings.specs.Valid.{has_blocks};
ghost use Rattle.fx_vectors.specs.declared.shape.TheConstants.{MOST_FACTORS};
ghost use Rattle.fx_statements.specs.Folds.{IsFold, codes_by, fold_by, fold_of, folded_at, item_folded, items_folded, names_folded};

use fx_base::Bytes;
use fx_language::{Symbol, code};
use fx_settings::{Blocks, NameItem, StepSettings, item_behind};
use fx_text::{
    Lexeme, ParseStop, Phrase, Refusal, Statement, find, is_range, number_at_end, numbered_name,
    place_of, stem,
};
use fx_vectors::Vector;
use std::alloc::Global;

/// Whether a step asks for a fold-over, the same runs again with the levels of some factors exchanged
/// (Wu and Hamada).
#[derive(Drop)]
pub enum Fold {
    Without,
    /// The factors with the code 1 are folded, the others have the code 0.
    Factors(Vector),
}

/// The fold that the FOLDOVER statement of a step with these factors and settings asks for.
///
/// # Errors
///
/// E36 with other than two levels, or with blocks; then at the first item with one of these: E30, its
/// range is not regular; E4, a name is no factor's. And `NoMemory`.
pub(crate) fn fold_of(
    alloc: Global,
    factors: &[Bytes],
    settings: StepSettings,
    statements: &[Statement<'_>],
) -> Result<Fold, ParseStop>
    requires { length factors.now ≤ MOST_FACTORS }
    ensures ok { IfOk result (λ fold. fold_of factors.now settings statements.now ≡ Ok fold) }
    ensures fits { IfOk result (IsFold settings.q settings.blocks (length factors.now)) }
    ensures refused { IfErr result (IsRefused (fold_of factors.now settings statements.now)) }
{
    match find(Symbol::Foldover, statements) {
        None => Ok(Fold::Without),
        Some(statement) => fold_by(alloc, factors, settings, &statement),
    }
}

fn fold_by(
    alloc: Global,
    factors: &[Bytes],
    settings: StepSettings,
    statement: &Phrase<'_>,
) -> Result<Fold, ParseStop>
    requires { length factors.now ≤ MOST_FACTORS }
    ensures ok { IfOk result (λ fold. fold_by factors.now settings statement.now ≡ Ok fold) }
    ensures fits { IfOk result (IsFold settings.q settings.blocks (length factors.now)) }
    ensures refused { IfErr result (IsRefused (fold_by factors.now settings statement.now)) }
{
    if settings.q != 2 || are_blocked(settings.blocks) {
        let place = statement.place();
        return Err(ParseStop::Refused(Refusal::at(place, code::FOLDOVER_NEEDS_TWO_LEVELS)));
    }
    let codes = codes_by(alloc, factors, statement)?;
    Ok(Fold::Factors(codes))
}

/// Whether there are blocks.
fn are_blocked(blocks: Blocks) -> bool
    ensures { result ≡ has_blocks blocks }
{
    match blocks {
        Blocks::Without => false,
        Blocks::Factors { .. } | Blocks::PerBlock { .. } | Blocks::Most => true,
    }
}

/// The codes by a FOLDOVER statement: without an item all factors are folded.
fn codes_by(alloc: Global, factors: &[Bytes], statement: &Phrase<'_>) -> Result<Vector, ParseStop>
    requires { length factors.now ≤ MOST_FACTORS }
    ensures ok { IfOk result (λ codes. codes_by factors.now statement.now ≡ Ok codes) }
    ensures vector { IfOk result (IsVector 2 (length factors.now)) }
    ensures refused { IfErr result (IsRefused (codes_by factors.now statement.now)) }
{
    match statement.lexemes() {
        [_, _, ..] => items_folded(alloc, factors, statement),
        _ => Ok(all_folded(factors.len())),
    }
}

/// The codes by the items of a FOLDOVER statement.
fn items_folded(
    alloc: Global,
    factors: &[Bytes],
    statement: &Phrase<'_>,
) -> Result<Vector, ParseStop>
    requires { length factors.now ≤ MOST_FACTORS }
    ensures ok { IfOk result (λ codes.
        items_folded factors.now (zeros (length factors.now)) (items_behind statement.now)
        ≡ Ok codes) }
    ensures vector { IfOk result (IsVector 2 (length factors.now)) }
    ensures refused { IfErr result
        (IsRefused
        (items_folded factors.now (zeros (length factors.now)) (items_behind statement.now))) }
{
    let lexemes = statement.lexemes();
    let mut codes = Vector::zero(factors.len());
    for (i, before) in lexemes.iter().enumerate() {
        if let Some(item) = item_behind(before, &lexemes[i + 1..]) {
            fold_item(alloc, factors, &mut codes, &item)?;
        }
    }
    Ok(codes)
}

/// The fold of all of `s` factors.
fn all_folded(s: usize) -> Vector
    requires { s ≤ MOST_FACTORS }
    ensures ones { result ≡ replicate s 1 }
    ensures vector { IsVector 2 s result }
{
    let mut codes = Vector::zero(s);
    for i in 0..s {
        codes.set(i, 1);
    }
    codes
}

/// Folds the factors of an item.
fn fold_item(
    alloc: Global,
    factors: &[Bytes],
    codes: &mut Vector,
    item: &NameItem<'_>,
) -> Result<(), ParseStop>
    requires { IsVector 2 (length factors.now) codes.old }
    ensures folded { OnOk result (item_folded factors.now codes.old item.now ≡ Ok codes.new) }
    ensures vector { OnOk result (IsVector 2 (length factors.now) codes.new) }
    ensures refused { IfErr result (IsRefused (item_folded factors.now codes.old item.now)) }
{
    match item.last {
        None => {
            fold_name(factors, codes, item.first, item.first.text())?;
            Ok(())
        }
        Some(last) => fold_range(alloc, factors, codes, item.first, last),
    }
}

/// Folds the factors of a range.
fn fold_range(
    alloc: Global,
    factors: &[Bytes],
    codes: &mut Vector,
    first: &Lexeme<'_>,
    last: &Lexeme<'_>,
) -> Result<(), ParseStop>
    requires { IsVector 2 (length factors.now) codes.old }
    ensures folded { OnOk result
        (item_folded factors.now codes.old (item_of first.now (Some last.now)) ≡ Ok codes.new) }
    ensures vector { OnOk result (IsVector 2 (length factors.now) codes.new) }
    ensures refused { IfErr result
        (IsRefused (item_folded factors.now codes.old (item_of first.now (Some last.now)))) }
{
    let (low, high) = (first.text(), last.text());
    if !is_range(low, high) {
        return Err(ParseStop::Refused(first.refused(code::IRREGULAR_RANGE)));
    }
    let from = number_at_end(low);
    let upto = number_at_end(high);
    fold_numbered(alloc, factors, codes, first, from, upto - from + 1)
}

/// Folds the factors whose names are the stem of a name with each of `count` numbers.
fn fold_numbered(
    alloc: Global,
    factors: &[Bytes],
    codes: &mut Vector,
    first: &Lexeme<'_>,
    from: u128,
    count: u128,
) -> Result<(), ParseStop>
    requires vector { IsVector 2 (length factors.now) codes.old }
    requires numbers { from + count ≤ 2 ^ 128 }
    ensures folded { OnOk result
        (names_folded first.now factors.now codes.old
        (numbered (stem first.now.text) from count)
        ≡ Ok codes.new) }
    ensures vector { OnOk result (IsVector 2 (length factors.now) codes.new) }
    ensures refused { IfErr result
        (IsRefused
        (names_folded first.now factors.now codes.old
        (numbered (stem first.now.text) from count))) }
{
    for i in 0..count {
        let name = numbered_name(alloc, stem(first.text()), from + i)?;
        fold_name(factors, codes, first, name.as_slice())?;
    }
    Ok(())
}

/// Folds the factor with this name.
///
/// # Errors
///
/// E4 at `place`: no factor has it.
fn fold_name(
    factors: &[Bytes],
    codes: &mut Vector,
    place: &Lexeme<'_>,
    name: &[u8],
) -> Result<(), Refusal>
    requires { IsVector 2 (length factors.now) codes.old }
    ensures ok { OnOk result
        (folded_at place.now codes.old (place_of name.now factors.now) ≡ Ok codes.new) }
    ensures vector { OnOk result (IsVector 2 (length factors.now) codes.new) }
    ensures refused { IfErr result (λ refusal.
        folded_at place.now codes.old (place_of name.now factors.now) ≡ Err refusal) }
{
    match place_of(name, factors) {
        Some(i) => {
            codes.set(i, 1);
            Ok(())
        }
        None => Err(place.refused(code::UNKNOWN_FACTOR)),
    }
}
