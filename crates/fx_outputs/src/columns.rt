ghost use Rattle.std.specs.Prelude.{◌≡◌, ◌==◌, IfOk, IfErr, OnOk, Ok};
ghost use Rattle.std.specs.List.{list_any};
ghost use Rattle.fx_text.specs.Refusals.{IsRefused};
ghost use Rattle.fx_outputs.specs.Columns.{column_of, columns_of, has_values, is_used, recode_at};
ghost use Rattle.fx_outputs.specs.DerivedFactors.{is_bracketed};

use crate::context::OutputContext;
use crate::derived::{Derived, Deriveds, derived_factor};
use crate::recode::{Recode, Recodes, recoded};
use fx_language::Symbol;
use fx_text::{Lexeme, ParseStop, Phrase};
use std::alloc::Global;

/// The recoded and the derived factors of a statement, each in its order.
pub struct Columns {
    pub recodes: Recodes,
    pub derived: Deriveds,
}

// Not derived, so that a place that drops one is proved with one call.
impl Drop for Columns {
    fn drop(self) {
        let Columns {
            recodes: _,
            derived: _,
        } = self;
    }
}

impl Columns {
    /// The recoded factors, and the derived ones.
    pub(crate) fn into_parts(self) -> (Recodes, Deriveds)
        ensures recodes { result.0 ≡ self.recodes }
        ensures derived { result.1 ≡ self.derived }
    {
        let Columns { recodes, derived } = self;
        (recodes, derived)
    }

    /// Whether the factor at a place, counted from 1, has values or stands in brackets.
    pub(crate) fn uses(&self, place: u8) -> bool
        ensures { result ≡ is_used self.now place }
    {
        has_values(self.recodes.as_slice(), place) || is_bracketed(self.derived.as_slice(), place)
    }
}

/// Whether the factor at this place has values already.
fn has_values(earlier: &[Recode], place: u8) -> bool
    ensures { result ≡ has_values earlier.now place }
{
    earlier.iter().any(|recode| recode.place == place)
}

/// Whether the factor at this place stands in brackets.
pub(crate) fn is_bracketed(derived: &[Derived], place: u8) -> bool
    ensures { result ≡ is_bracketed derived.now place }
{
    for factor in derived {
        if is_among(factor.places.as_slice(), place) {
            return true;
        }
    }
    false
}

/// Whether the place is one of these.
pub(crate) fn is_among(places: &[u8], place: u8) -> bool
    ensures { result ≡ list_any (λ p. p == place) places.now }
{
    places.iter().any(|p| *p == place)
}

/// The recoded and derived factors of the options of a statement.
///
/// # Errors
///
/// The first refusal, from left to right: of a recoded factor by E4, E28, E17; of brackets by E35,
/// their names each by E4 and E28, and E17; `NoMemory`.
pub fn read_columns(
    alloc: Global,
    context: &OutputContext<'_>,
    options: &[Phrase<'_>],
) -> Result<Columns, ParseStop>
    ensures ok { IfOk result (λ columns. columns_of context.now options.now ≡ Ok columns) }
    ensures refused { IfErr result (IsRefused (columns_of context.now options.now)) }
{
    let mut done = Columns {
        recodes: Recodes::new(alloc),
        derived: Deriveds::new(alloc),
    };
    for option in options {
        read_column(alloc, context, &mut done, option)?;
    }
    Ok(done)
}

/// Reads the derived or recoded factor of an option, if it has one.
fn read_column(
    alloc: Global,
    context: &OutputContext<'_>,
    done: &mut Columns,
    option: &Phrase<'_>,
) -> Result<(), ParseStop>
    ensures ok { OnOk result (column_of context.now done.old option.now ≡ Ok done.new) }
    ensures refused { IfErr result (IsRefused (column_of context.now done.old option.now)) }
{
    let lexemes = option.lexemes();
    if lexemes.is_empty() {
        return Ok(());
    }
    let first = &lexemes[0];
    let rest = option.from(1);
    if first.is(Symbol::OpenBracket) {
        let factor = derived_factor(alloc, context, done, first, &rest)?;
        done.derived.push(factor)?;
        return Ok(());
    }
    if first.symbol().is_output_option() {
        return Ok(());
    }
    read_recode(alloc, context, done, first, &rest)
}

/// Reads a factor's values, if there are any.
fn read_recode(
    alloc: Global,
    context: &OutputContext<'_>,
    done: &mut Columns,
    name: &Lexeme<'_>,
    rest: &Phrase<'_>,
) -> Result<(), ParseStop>
    ensures ok { OnOk result (recode_at context.now done.old name.now rest.now ≡ Ok done.new) }
    ensures refused { IfErr result (IsRefused (recode_at context.now done.old name.now rest.now)) }
{
    let lexemes = rest.lexemes();
    if lexemes.is_empty() {
        return Ok(());
    }
    let factor = recoded(alloc, context, done, name, &lexemes[0], &rest.from(1))?;
    done.recodes.push(factor)?;
    Ok(())
}
