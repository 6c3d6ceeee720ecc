ghost use Rattle.std.specs.Prelude.{◌≡◌, ◌^◌, ◌||◌, ◌==◌, [], length, slice_get, IfOk, IfErr, Ok, Err, OnOk};
ghost use Rattle.std.specs.List.{list_any};
ghost use Rattle.fx_text.specs.Refusals.{IsRefused};
ghost use Rattle.fx_outputs.specs.BlockColumns.{name_or_empty};
ghost use Rattle.fx_outputs.specs.Columns.{check_size, derived_of, is_used, places_behind};

use crate::columns::{Columns, is_among};
use crate::context::OutputContext;
use crate::recode::{factor_at, unused_place};
use crate::value::values_if_any;
use fx_base::{Bytes, Items, NoMemory};
use fx_language::{Symbol, code};
use fx_text::{Lexeme, Names, ParseStop, Phrase, Refusal};
use std::alloc::Global;

/// A derived factor: its levels are those of two to four factors together.
pub struct Derived {
    /// The places of these among the step's factors, from 1.
    pub places: Bytes,
    /// Its name, as it is written.
    pub name: Bytes,
    /// A value for each of its levels, in order; empty where the text has none.
    pub values: Names,
}

// Not derived, so that a place that drops one is proved with one call.
impl Drop for Derived {
    fn drop(self) {
        let Derived {
            places: _,
            name: _,
            values: _,
        } = self;
    }
}

/// The derived factors of a statement, in its order.
pub type Deriveds = Items<Derived>;

/// A derived factor, after the columns that are earlier: `bracket` is `[`, and `rest` what follows it,
/// names up to `]`, `=`, its name, and maybe values.
///
/// # Errors
///
/// E35 at `[`, where there are fewer than two or more than four names, or more than 64 levels; E4 at a
/// name that is no factor's; E28 at a factor that has values or stands in brackets already; E17 at
/// NVALS or CVALS for another number of values than levels; `NoMemory`.
pub(crate) fn derived_factor(
    alloc: Global,
    context: &OutputContext<'_>,
    done: &Columns,
    bracket: &Lexeme<'_>,
    rest: &Phrase<'_>,
) -> Result<Derived, ParseStop>
    ensures ok { IfOk result (λ d. derived_of context.now done.now bracket.now rest.now ≡ Ok d) }
    ensures refused { IfErr result
        (IsRefused (derived_of context.now done.now bracket.now rest.now)) }
{
    let names = rest.before(Symbol::CloseBracket);
    let behind = rest.after(Symbol::CloseBracket);
    let levels = level_count(context.q, names.lexemes().len(), bracket)?;
    let places = places(alloc, context, done, &names)?;
    let values = values_if_any(alloc, Some(levels), &behind.from(2))?;
    Ok(Derived {
        places,
        name: derived_name(alloc, &behind)?,
        values,
    })
}

/// How many levels a derived factor of `count` factors of `q` levels has.
///
/// # Errors
///
/// E35 at `bracket`: for fewer than two or more than four factors, or more than 64 levels.
fn level_count(q: u8, count: usize, bracket: &Lexeme<'_>) -> Result<u32, Refusal>
    ensures size { OnOk result (check_size q count bracket.now ≡ Ok tt) }
    ensures levels { IfOk result (λ levels. levels ≡ q ^ count) }
    ensures refused { IfErr result (λ refusal. check_size q count bracket.now ≡ Err refusal) }
{
    if !(2..=4).contains(&count) {
        return Err(bracket.refused(code::INVALID_DERIVED_FACTOR));
    }
    match u128::from(q).checked_pow(count as u32) {
        Some(levels) if levels <= 64 => Ok(levels as u32),
        Some(_) => Err(bracket.refused(code::INVALID_DERIVED_FACTOR)),
        None => Err(bracket.refused(code::INVALID_DERIVED_FACTOR)),
    }
}

/// The places of the names in brackets.
fn places(
    alloc: Global,
    context: &OutputContext<'_>,
    done: &Columns,
    names: &Phrase<'_>,
) -> Result<Bytes, ParseStop>
    ensures ok { IfOk result (λ places. places_behind context.now done.now [] names.now ≡ Ok places) }
    ensures refused { IfErr result (IsRefused (places_behind context.now done.now [] names.now)) }
{
    let mut places = Bytes::new(alloc);
    for name in names.lexemes() {
        let factor = factor_at(context, name)?;
        let used = is_taken(done, places.as_slice(), factor);
        places.push(unused_place(used, name, factor)?)?;
    }
    Ok(places)
}

/// Whether a factor is in an earlier column, or in the same brackets already.
fn is_taken(done: &Columns, places: &[u8], factor: u8) -> bool
    ensures { result ≡ (is_used done.now factor || list_any (λ p. p == factor) places.now) }
{
    done.uses(factor) || is_among(places, factor)
}

/// The name of a derived factor. `behind` is what follows `]`.
fn derived_name(alloc: Global, behind: &Phrase<'_>) -> Result<Bytes, NoMemory>
    ensures { IfOk result (λ name. name ≡ name_or_empty (slice_get behind.now 1)) }
{
    match behind.at(1) {
        Some(name) => Bytes::from_slice(alloc, name.text()),
        None => Ok(Bytes::new(alloc)),
    }
}
