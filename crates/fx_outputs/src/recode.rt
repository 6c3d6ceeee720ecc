ghost use Rattle.std.specs.Prelude.{◌≡◌, IfOk, IfErr};
ghost use Rattle.fx_text.specs.Refusals.{IsRefused};
ghost use Rattle.fx_text.specs.Names.{place_of};
ghost use Rattle.fx_outputs.specs.Columns.{factor_at, recode_of, unused_place};

use crate::columns::Columns;
use crate::context::OutputContext;
use crate::value::counted_values;
use fx_base::Items;
use fx_language::code;
use fx_text::{Lexeme, Names, ParseStop, Phrase, Refusal, place_of};
use std::alloc::Global;

/// A factor that has values of its own.
pub struct Recode {
    /// Its place among the step's factors, from 1.
    pub place: u8,
    /// A value for each level, in order.
    pub values: Names,
}

// Not derived, so that a place that drops one is proved with one call.
impl Drop for Recode {
    fn drop(self) {
        let Recode {
            place: _,
            values: _,
        } = self;
    }
}

/// The recoded factors of a statement, in its order.
pub type Recodes = Items<Recode>;

/// A factor and its values, which follow `word`, after the columns that are earlier.
///
/// # Errors
///
/// E4 at a name that is no factor's, E28 at a factor that has values already or stands in brackets,
/// E17 at `word` for another number of values than levels; `NoMemory`.
pub(crate) fn recoded(
    alloc: Global,
    context: &OutputContext<'_>,
    done: &Columns,
    name: &Lexeme<'_>,
    word: &Lexeme<'_>,
    rest: &Phrase<'_>,
) -> Result<Recode, ParseStop>
    ensures ok { IfOk result (λ recode.
        recode_of context.now done.now name.now word.now rest.now ≡ Ok recode) }
    ensures refused { IfErr result
        (IsRefused (recode_of context.now done.now name.now word.now rest.now)) }
{
    let factor = factor_at(context, name)?;
    let place = unused_place(done.uses(factor), name, factor)?;
    let values = counted_values(alloc, Some(u32::from(context.q)), word, rest)?;
    Ok(Recode { place, values })
}

/// The place of the factor of this name, from 1.
///
/// # Errors
///
/// E4 at the name: no factor has it.
pub(crate) fn factor_at(context: &OutputContext<'_>, name: &Lexeme<'_>) -> Result<u8, Refusal>
    ensures { result ≡ factor_at name.now (place_of name.now.text context.now.factors) }
{
    match place_of(name.text(), context.factors) {
        Some(i) => Ok(i as u8 + 1),
        None => Err(name.refused(code::UNKNOWN_FACTOR)),
    }
}

/// The place of a factor that is not used yet.
///
/// # Errors
///
/// E28 at the name: it has values already, or stands in brackets.
pub(crate) fn unused_place(used: bool, name: &Lexeme<'_>, place: u8) -> Result<u8, Refusal>
    ensures { result ≡ unused_place used name.now place }
{
    if used {
        return Err(name.refused(code::REPEATED_OPTION));
    }
    Ok(place)
}
