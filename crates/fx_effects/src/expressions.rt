ghost use Rattle.std.specs.Prelude.{◌≡◌, ◌≤◌, false, length, take, Ok, IfOk, IfErr};
ghost use Rattle.fx_text.specs.Refusals.{IsRefused};
ghost use Rattle.fx_effects.specs.Lists.{AreSmall};
ghost use Rattle.fx_effects.specs.Expressions.{begins_effect, effect_len, expressions_of, is_joining};
ghost use Rattle.fx_vectors.specs.declared.shape.TheConstants.{MOST_FACTORS};

use crate::expression::{Expression, expression_at};
use fx_base::{Bytes, Items};
use fx_language::Symbol;
use fx_text::{Lexeme, ParseStop};
use std::alloc::Global;

/// Effects as they are written, from left to right.
pub(crate) type Expressions = Items<Expression>;

/// The effects of a list, those between its parentheses.
///
/// # Errors
///
/// At the first effect with one of these, in this order: E30, E4, E29. And `NoMemory`.
pub(crate) fn expressions_of(
    alloc: Global,
    factors: &[Bytes],
    written: &[Lexeme<'_>],
) -> Result<Expressions, ParseStop>
    requires { length factors.now ≤ MOST_FACTORS }
    ensures ok { IfOk result (λ all. expressions_of factors.now written.now ≡ Ok all) }
    ensures numbers { IfOk result AreSmall }
    ensures refused { IfErr result (IsRefused (expressions_of factors.now written.now)) }
{
    let mut all = Expressions::new(alloc);
    let mut joined = false;
    for (i, w) in written.iter().enumerate() {
        if begins_effect(joined, w) {
            let rest = effect_rest(&written[i + 1..]);
            let expression = expression_at(alloc, factors, w, rest)?;
            all.push(expression)?;
        }
        joined = is_joining(w);
    }
    Ok(all)
}

/// Whether an effect begins at it.
fn begins_effect(joined: bool, w: &Lexeme<'_>) -> bool
    ensures { result ≡ begins_effect joined w.now }
{
    w.symbol().is_word() && !joined
}

/// Whether it joins the names of one effect.
fn is_joining(w: &Lexeme<'_>) -> bool
    ensures { result ≡ is_joining w.now.symbol }
{
    w.is(Symbol::Star) || w.is(Symbol::Bar) || w.is(Symbol::Minus)
}

/// What belongs to the effect whose first name precedes it.
fn effect_rest<'b, 'a>(behind: &'b [Lexeme<'a>]) -> &'b [Lexeme<'a>]
    ensures { result.now ≡ take (effect_len false behind.now) behind.now }
{
    &behind[..effect_len(behind)]
}

/// How many lexemes precede the next effect.
fn effect_len(behind: &[Lexeme<'_>]) -> usize
    ensures value { result ≡ effect_len false behind.now }
    ensures bound { result ≤ length behind.now }
{
    let mut joined = false;
    for (i, w) in behind.iter().enumerate() {
        if begins_effect(joined, w) {
            return i;
        }
        joined = is_joining(w);
    }
    behind.len()
}
