ghost use Rattle.std.specs.Prelude.{◌≡◌, ◌≤◌, length, Ok, IfOk, IfErr};
ghost use Rattle.fx_text.specs.Refusals.{IsRefused};
ghost use Rattle.fx_vectors.specs.Effects.{numbers_of};
ghost use Rattle.fx_vectors.specs.Question.{CanBeTold};
ghost use Rattle.fx_vectors.specs.declared.shape.TheConstants.{MOST_FACTORS};
ghost use Rattle.fx_demands.specs.declared.unions.TheConstants.{MOST_EFFECTS};
ghost use Rattle.fx_demands.specs.Bars.{AreOrdered};
ghost use Rattle.fx_effects.specs.Models.{AreApart, first_or, lists_at, lists_after, lists_of, check_some_effects, told_apart, without};

use crate::expressions::expressions_of;
use crate::lists::list_of;
use fx_base::{Bytes, NoMemory};
use fx_demands::pair_count;
use fx_galois::Field;
use fx_language::{Symbol, code};
use fx_text::{Lexeme, ParseStop, Phrase, Place, Refusal};
use fx_vectors::{Effects, contains};
use std::alloc::Global;
use std::marker::Model;

/// The effects that a MODEL statement asks for, none in both lists. Clauses see the numbers of the
/// effects.
#[derive(Drop)]
pub struct ModelEffects {
    /// Those to be estimated, in effect order.
    pub estimate: Effects,
    /// Those besides them that are not negligible, in effect order.
    pub nonnegligible: Effects,
}

impl Model for ModelEffects {
    ghost use Rattle.fx_vectors.specs.Effects.{numbers_of};
    ghost use Rattle.fx_effects.specs.Models.{EffectLists};

    ghost Value = { EffectLists };

    ghost view = { λ m. record { estimate = numbers_of m.estimate; nonnegligible = numbers_of m.nonnegligible } };
}

/// The effects of a statement `MODEL ESTIMATE = ( .. )`, which may go on by `NONNEGLIGIBLE = ( .. )`,
/// in a step with these factors, of which there are at most `MOST_FACTORS`.
///
/// # Errors
///
/// At the first effect of ESTIMATE and then of NONNEGLIGIBLE with one of these, in this order: E30, a
/// range is not regular; E4, a name is no factor's; E29, `@n` keeps no effect. Then E23 for ESTIMATE
/// and then for NONNEGLIGIBLE, a list has more than 100,000 effects. Then E22, there are more than
/// 2,000,000 pairs. And `NoMemory`. A statement without an effect in ESTIMATE, which the grammar
/// refuses, is refused here by E2.
pub fn effects_of(
    alloc: Global,
    field: Field,
    factors: &[Bytes],
    statement: &Phrase<'_>,
) -> Result<ModelEffects, ParseStop>
    requires { length factors.now ≤ MOST_FACTORS }
    ensures ok { IfOk result (λ effects. lists_of field factors.now statement.now ≡ Ok effects) }
    ensures askable { IfOk result (λ effects.
        CanBeTold field (length factors.now) effects.estimate
        effects.nonnegligible) }
    ensures few { IfOk result (λ effects. (length effects.estimate ≤ MOST_EFFECTS)
        × (length effects.nonnegligible ≤ MOST_EFFECTS)) }
    ensures refused { IfErr result (IsRefused (lists_of field factors.now statement.now)) }
{
    match statement.at(1) {
        None => Err(ParseStop::Refused(Refusal::at(
            Place { line: 1, column: 1 },
            code::UNEXPECTED_SYMBOL,
        ))),
        Some(word) => effects_after(alloc, field, factors, word, &statement.from(4)),
    }
}

/// The effects of what follows `MODEL ESTIMATE = (`.
fn effects_after<'a>(
    alloc: Global,
    field: Field,
    factors: &[Bytes],
    word: &'a Lexeme<'a>,
    written: &Phrase<'a>,
) -> Result<ModelEffects, ParseStop>
    requires { length factors.now ≤ MOST_FACTORS }
    ensures ok { IfOk result (λ effects.
        lists_after field factors.now word.now written.now ≡ Ok effects) }
    ensures apart { IfOk result (AreApart field) }
    ensures refused { IfErr result (IsRefused (lists_after field factors.now word.now written.now)) }
{
    let rest = written.after(Symbol::Close);
    let other_word = first_or(word, &rest);
    let first = written.before(Symbol::Close);
    let others = rest.from(3).before(Symbol::Close);
    lists_at(
        alloc,
        field,
        factors,
        word,
        first.lexemes(),
        other_word,
        others.lexemes(),
    )
}

/// The effects of two lists, each after its word.
fn lists_at(
    alloc: Global,
    field: Field,
    factors: &[Bytes],
    word: &Lexeme<'_>,
    written: &[Lexeme<'_>],
    other_word: &Lexeme<'_>,
    other_written: &[Lexeme<'_>],
) -> Result<ModelEffects, ParseStop>
    requires { length factors.now ≤ MOST_FACTORS }
    ensures ok { IfOk result (λ effects.
        lists_at field factors.now word.now written.now other_word.now
        other_written.now
        ≡ Ok effects) }
    ensures apart { IfOk result (AreApart field) }
    ensures refused { IfErr result
        (IsRefused
        (lists_at field factors.now word.now written.now other_word.now
        other_written.now)) }
{
    let estimate = expressions_of(alloc, factors, written)?;
    let others = expressions_of(alloc, factors, other_written)?;
    let estimate = list_of(alloc, word, estimate.as_slice())?;
    let others = list_of(alloc, other_word, others.as_slice())?;
    check_some_effects(word, &estimate)?;
    told_apart(alloc, field, word, estimate, &others)
}

/// Tests that there are effects in a list.
///
/// # Errors
///
/// E2 at its word: there are none.
fn check_some_effects(word: &Lexeme<'_>, effects: &Effects) -> Result<(), Refusal>
    ensures { result ≡ check_some_effects word.now (numbers_of effects.now) }
{
    if effects.len() == 0 {
        return Err(word.refused(code::UNEXPECTED_SYMBOL));
    }
    Ok(())
}

/// Both lists, where those to be estimated are no others.
fn told_apart(
    alloc: Global,
    field: Field,
    word: &Lexeme<'_>,
    estimate: Effects,
    others: &Effects,
) -> Result<ModelEffects, ParseStop>
    requires estimate { AreOrdered (numbers_of estimate) }
    requires others { AreOrdered (numbers_of others.now) }
    requires few_estimate { length estimate ≤ MOST_EFFECTS }
    requires few_others { length others.now ≤ MOST_EFFECTS }
    ensures ok { IfOk result (λ effects.
        told_apart field word.now (numbers_of estimate) (numbers_of others.now)
        ≡ Ok effects) }
    ensures apart { IfOk result (AreApart field) }
    ensures refused { IfErr result
        (IsRefused
        (told_apart field word.now (numbers_of estimate) (numbers_of others.now))) }
{
    // With more than 2,000,000 pairs in the first list alone, the others are not looked at: so there
    // are at most 1,414 effects that each of them is compared with.
    let none = Effects::new(alloc);
    if pair_count(field, &estimate, &none).is_none() {
        return Err(ParseStop::Refused(word.refused(code::TOO_MANY_DEMANDS)));
    }
    let nonnegligible = without(alloc, &estimate, others)?;
    if pair_count(field, &estimate, &nonnegligible).is_none() {
        return Err(ParseStop::Refused(word.refused(code::TOO_MANY_DEMANDS)));
    }
    Ok(ModelEffects {
        estimate,
        nonnegligible,
    })
}

/// The effects without those to be estimated.
fn without(alloc: Global, estimate: &Effects, effects: &Effects) -> Result<Effects, NoMemory>
    ensures { IfOk result (λ others.
        numbers_of others ≡ without (numbers_of estimate.now) (numbers_of effects.now)) }
{
    let mut others = Effects::new(alloc);
    for e in effects.as_slice() {
        if !contains(estimate, *e) {
            others.push(*e)?;
        }
    }
    Ok(others)
}

/// The first of some, or another where there is none.
fn first_or<'a>(other: &'a Lexeme<'a>, written: &Phrase<'a>) -> &'a Lexeme<'a>
    ensures { result.now ≡ first_or other.now written.now }
{
    let lexemes = written.lexemes();
    if lexemes.is_empty() {
        return other;
    }
    &lexemes[0]
}
