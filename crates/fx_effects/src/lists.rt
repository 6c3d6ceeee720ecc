ghost use Rattle.std.specs.Prelude.{◌≡◌, ◌≤◌, length, Ok, IfOk, IfErr};
ghost use Rattle.fx_text.specs.Refusals.{IsRefused};
ghost use Rattle.fx_vectors.specs.Effects.{numbers_of};
ghost use Rattle.fx_demands.specs.declared.unions.TheConstants.{MOST_EFFECTS};
ghost use Rattle.fx_demands.specs.Bars.{AreOrdered, IsCause};
ghost use Rattle.fx_effects.specs.Lists.{AreSmall, few_effects, effects_of};

use crate::distinct::distinct;
use crate::expression::Expression;
use fx_demands::{EffectStop, MOST_EFFECTS, bars, merged};
use fx_language::code;
use fx_text::{Lexeme, ParseStop};
use fx_vectors::Effects;
use std::alloc::Global;

/// The set of effects of a list after this word, in effect order.
///
/// # Errors
///
/// E23 at the word: there are more than 100,000. And `NoMemory`.
pub(crate) fn list_of(
    alloc: Global,
    word: &Lexeme<'_>,
    expressions: &[Expression],
) -> Result<Effects, ParseStop>
    requires { AreSmall expressions.now }
    ensures ok { IfOk result (λ effects.
        few_effects word.now (effects_of expressions.now)
        ≡ Ok (numbers_of effects)) }
    ensures ordered { IfOk result (λ effects. AreOrdered (numbers_of effects)) }
    ensures few { IfOk result (λ effects. length effects ≤ MOST_EFFECTS) }
    ensures refused { IfErr result (IsRefused (few_effects word.now (effects_of expressions.now))) }
{
    match effects_of(alloc, expressions) {
        Ok(effects) => Ok(effects),
        Err(EffectStop::TooMany) => Err(ParseStop::Refused(word.refused(code::TOO_MANY_EFFECTS))),
        Err(EffectStop::NoMemory) => Err(ParseStop::NoMemory),
    }
}

/// The set of effects that they denote, in effect order. `TooMany` where there are more than
/// 100,000.
fn effects_of(alloc: Global, expressions: &[Expression]) -> Result<Effects, EffectStop>
    requires { AreSmall expressions.now }
    ensures effects { IfOk result (λ effects. numbers_of effects ≡ effects_of expressions.now) }
    ensures ordered { IfOk result (λ effects. AreOrdered (numbers_of effects)) }
    ensures few { IfOk result (λ effects. length effects ≤ MOST_EFFECTS) }
    ensures many { IfErr result (IsCause (effects_of expressions.now)) }
{
    let distinct = distinct(alloc, expressions)?;
    effects_of_each(alloc, distinct.as_slice())
}

/// The same, each expression for itself. Halves are joined, so that an effect is moved as often as the
/// list can be halved.
fn effects_of_each(alloc: Global, expressions: &[Expression]) -> Result<Effects, EffectStop>
    requires { AreSmall expressions.now }
    ensures effects { IfOk result (λ effects. numbers_of effects ≡ effects_of expressions.now) }
    ensures ordered { IfOk result (λ effects. AreOrdered (numbers_of effects)) }
    ensures few { IfOk result (λ effects. length effects ≤ MOST_EFFECTS) }
    ensures many { IfErr result (IsCause (effects_of expressions.now)) }
{
    if expressions.len() <= 1 {
        return effects_of_one(alloc, expressions);
    }
    let (front, back) = expressions.split_at(expressions.len() / 2);
    let front = effects_of_each(alloc, front)?;
    let back = effects_of_each(alloc, back)?;
    let all = merged(alloc, &front, &back)?;
    if all.len() > MOST_EFFECTS {
        return Err(EffectStop::TooMany);
    }
    Ok(all)
}

/// The effects of one of them, or of none.
fn effects_of_one(alloc: Global, expressions: &[Expression]) -> Result<Effects, EffectStop>
    requires small { AreSmall expressions.now }
    requires one { length expressions.now ≤ 1 }
    ensures effects { IfOk result (λ effects. numbers_of effects ≡ effects_of expressions.now) }
    ensures ordered { IfOk result (λ effects. AreOrdered (numbers_of effects)) }
    ensures few { IfOk result (λ effects. length effects ≤ MOST_EFFECTS) }
    ensures many { IfErr result (IsCause (effects_of expressions.now)) }
{
    if expressions.len() == 0 {
        return Ok(Effects::new(alloc));
    }
    let expression = &expressions[0];
    bars(alloc, &expression.stars, expression.upto)
}
