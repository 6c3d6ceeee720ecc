ghost use Rattle.std.specs.Prelude.{◌≡◌, ◌≤◌, ◌+◌, ◌^◌, length, [], Ok, IfOk, IfErr};
ghost use Rattle.fx_text.specs.Refusals.{IsRefused};
ghost use Rattle.fx_text.specs.Ranges.{numbered, stem};
ghost use Rattle.fx_vectors.specs.Effects.{numbers_of};
ghost use Rattle.fx_vectors.specs.declared.shape.TheConstants.{MOST_FACTORS};
ghost use Rattle.fx_demands.specs.Bars.{AreNumbers};
ghost use Rattle.fx_effects.specs.Factors.{mains_from};
ghost use Rattle.fx_effects.specs.Expressions.{range_at};

use crate::expression::Expression;
use crate::factor::main_effect;
use fx_base::Bytes;
use fx_language::code;
use fx_text::{Lexeme, ParseStop, is_range, number_at_end, numbered_name, stem};
use fx_vectors::Effects;
use std::alloc::Global;

/// The main effects of a range.
///
/// # Errors
///
/// At its first name: E30, it is not regular; E4, a name of it is no factor's. And `NoMemory`.
pub(crate) fn range_at(
    alloc: Global,
    factors: &[Bytes],
    first: &Lexeme<'_>,
    last: &Lexeme<'_>,
) -> Result<Expression, ParseStop>
    requires { length factors.now ≤ MOST_FACTORS }
    ensures ok { IfOk result (λ e. range_at factors.now first.now last.now ≡ Ok e) }
    ensures numbers { IfOk result (λ e. AreNumbers e.stars) }
    ensures refused { IfErr result (IsRefused (range_at factors.now first.now last.now)) }
{
    let (low, high) = (first.text(), last.text());
    if !is_range(low, high) {
        return Err(ParseStop::Refused(first.refused(code::IRREGULAR_RANGE)));
    }
    let from = number_at_end(low);
    let upto = number_at_end(high);
    let stars = mains(alloc, factors, first, from, upto - from + 1)?;
    Ok(Expression { stars, upto: 1 })
}

/// The main effects of the factors whose names are the stem of a name with one of `count` numbers.
fn mains(
    alloc: Global,
    factors: &[Bytes],
    first: &Lexeme<'_>,
    from: u128,
    count: u128,
) -> Result<Effects, ParseStop>
    requires few { length factors.now ≤ MOST_FACTORS }
    requires numbers { from + count ≤ 2 ^ 128 }
    ensures ok { IfOk result (λ mains.
        mains_from first.now factors.now []
        (numbered (stem first.now.text) from count)
        ≡ Ok (numbers_of mains)) }
    ensures numbers { IfOk result (λ mains. AreNumbers (numbers_of mains)) }
    ensures refused { IfErr result
        (IsRefused
        (mains_from first.now factors.now []
        (numbered (stem first.now.text) from count))) }
{
    let mut mains = Effects::new(alloc);
    for i in 0..count {
        let name = numbered_name(alloc, stem(first.text()), from + i)?;
        mains.push(main_effect(factors, first, name.as_slice())?)?;
    }
    Ok(mains)
}
