ghost use Rattle.std.specs.Prelude.{◌≡◌, ◌≤◌, nat_le, count_ones, length, Ok, Some, None, IfOk, IfErr, slice_get};
ghost use Rattle.std.specs.List.{list_any};
ghost use Rattle.fx_language.specs.declared.symbol.Symbol.TheVariants.{At};
ghost use Rattle.fx_language.specs.Symbols.{is};
ghost use Rattle.fx_text.specs.Refusals.{IsRefused};
ghost use Rattle.fx_vectors.specs.Effects.{numbers_of};
ghost use Rattle.fx_vectors.specs.declared.shape.TheConstants.{MOST_FACTORS};
ghost use Rattle.fx_demands.specs.Bars.{AreNumbers};
ghost use Rattle.fx_effects.specs.Expressions.{at_most, bars_at, expression_at, stars_len, upto_of};

use crate::range::range_at;
use crate::stars::Stars;
use fx_base::Bytes;
use fx_language::{Symbol, code};
use fx_text::{Lexeme, ParseStop, Refusal, range_end};
use fx_vectors::{Effect, Effects};
use std::alloc::Global;
use std::marker::Model;

/// An effect as it is written. It represents the unions of its stars that have at most `upto`
/// factors.
#[derive(Drop)]
pub(crate) struct Expression {
    pub(crate) stars: Effects,
    pub(crate) upto: u8,
}

impl Model for Expression {
    ghost use Rattle.fx_vectors.specs.Effects.{numbers_of};
    ghost use Rattle.fx_effects.specs.Expressions.{Expression};

    ghost Value = { Expression };

    ghost view = { λ e. record { stars = numbers_of e.stars; upto = e.upto } };
}

/// The effect that begins with this name, which `rest` follows.
///
/// # Errors
///
/// E30 at a range that is not regular, E4 at a name that is no factor's, E29 at a number of factors
/// that all stars pass, and `NoMemory`.
pub(crate) fn expression_at(
    alloc: Global,
    factors: &[Bytes],
    first: &Lexeme<'_>,
    rest: &[Lexeme<'_>],
) -> Result<Expression, ParseStop>
    requires { length factors.now ≤ MOST_FACTORS }
    ensures ok { IfOk result (λ e. expression_at factors.now first.now rest.now ≡ Ok e) }
    ensures numbers { IfOk result (λ e. AreNumbers e.stars) }
    ensures refused { IfErr result (IsRefused (expression_at factors.now first.now rest.now)) }
{
    match range_end(rest) {
        None => bars_at(alloc, factors, first, rest),
        Some(last) => range_at(alloc, factors, first, last),
    }
}

/// Stars that are joined by bars.
fn bars_at(
    alloc: Global,
    factors: &[Bytes],
    first: &Lexeme<'_>,
    rest: &[Lexeme<'_>],
) -> Result<Expression, ParseStop>
    requires { length factors.now ≤ MOST_FACTORS }
    ensures ok { IfOk result (λ e. bars_at factors.now first.now rest.now ≡ Ok e) }
    ensures numbers { IfOk result (λ e. AreNumbers e.stars) }
    ensures refused { IfErr result (IsRefused (bars_at factors.now first.now rest.now)) }
{
    let len = stars_len(rest);
    let mut stars = Stars::new(alloc);
    stars.read(factors, first)?;
    stars.read_all(factors, &rest[..len])?;
    let stars = stars.finish()?;
    let upto = upto_of(&stars, &rest[len..])?;
    Ok(Expression { stars, upto })
}

/// How many lexemes precede `@`.
fn stars_len(written: &[Lexeme<'_>]) -> usize
    ensures value { result ≡ stars_len written.now }
    ensures bound { result ≤ length written.now }
{
    written.iter().take_while(|w| !w.is(Symbol::At)).count()
}

/// The most factors of a union, by the number after `@`, or as many as there are.
fn upto_of(stars: &Effects, behind: &[Lexeme<'_>]) -> Result<u8, Refusal>
    ensures { result ≡ upto_of (numbers_of stars.now) (slice_get behind.now 1) }
{
    match behind.get(1) {
        None => Ok(64),
        Some(number) => at_most(stars, number, number.number()),
    }
}

/// The number `n` that is written there, where some star has no more factors.
fn at_most(stars: &Effects, number: &Lexeme<'_>, n: Option<u128>) -> Result<u8, Refusal>
    ensures { result ≡ at_most (numbers_of stars.now) number.now n }
{
    match n {
        None => Err(number.refused(code::NUMBER_OUT_OF_RANGE)),
        Some(n) => {
            if has_within(stars, n) {
                Ok(n.min(64) as u8)
            } else {
                Err(number.refused(code::NUMBER_OUT_OF_RANGE))
            }
        }
    }
}

/// Whether some star has at most `n` factors.
fn has_within(stars: &Effects, n: u128) -> bool
    ensures { result ≡ list_any (λ e. nat_le (count_ones e) n) (numbers_of stars.now) }
{
    is_some_within(stars.as_slice(), n)
}

fn is_some_within(stars: &[Effect], n: u128) -> bool
    ensures { result ≡ list_any (λ e. nat_le (count_ones e.0) n) stars.now }
{
    stars.iter().any(|e| u128::from(e.0.count_ones()) <= n)
}
