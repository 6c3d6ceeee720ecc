ghost use Rattle.std.specs.Prelude.{◌≡◌, ◌++◌, ◌<◌, length, map, IfOk, IfErr, MatchOption, None, OnOk, Ok, Some};
ghost use Rattle.fx_text.specs.Refusals.{IsRefused};
ghost use Rattle.fx_outputs.specs.Columns.{check_name, check_names, derived_name, derived_names};
ghost use Rattle.fx_outputs.specs.OwnColumns.{free_names, other_columns, own_columns};

use crate::block::push_column;
use crate::columns::is_bracketed;
use crate::context::OutputContext;
use crate::derived::Derived;
use fx_base::{Bytes, NoMemory};
use fx_language::{Symbol, code};
use fx_text::{Lexeme, Names, ParseStop, Phrase, Refusal, place_of};
use std::alloc::Global;

/// The names of the columns of a file that are of no other plan.
pub(crate) fn own_columns(
    alloc: Global,
    context: &OutputContext<'_>,
    block_name: &[u8],
    derived: &[Derived],
) -> Result<Names, NoMemory>
    ensures { IfOk result (λ names. names ≡ own_columns context.now block_name.now derived.now) }
{
    let mut names = other_columns(alloc, context, block_name, derived)?;
    push_derived(alloc, derived, &mut names)?;
    Ok(names)
}

/// The same without the derived factors.
pub(crate) fn other_columns(
    alloc: Global,
    context: &OutputContext<'_>,
    block_name: &[u8],
    derived: &[Derived],
) -> Result<Names, NoMemory>
    ensures { IfOk result (λ names. names ≡ other_columns context.now block_name.now derived.now) }
{
    let mut names = Names::new(alloc);
    push_column(alloc, context.blocks, block_name, &mut names)?;
    push_free(alloc, context.factors, derived, &mut names)?;
    Ok(names)
}

/// Adds the names of the factors that stand in no brackets.
fn push_free(
    alloc: Global,
    factors: &[Bytes],
    derived: &[Derived],
    names: &mut Names,
) -> Result<(), NoMemory>
    requires { length factors.now < 256 }
    ensures { OnOk result (names.new ≡ names.old ++ free_names derived.now 1 factors.now) }
{
    for i in 0..factors.len() {
        if !is_bracketed(derived, i as u8 + 1) {
            names.push(Bytes::from_slice(alloc, factors[i].as_slice())?)?;
        }
    }
    Ok(())
}

/// Adds the names of derived factors.
fn push_derived(alloc: Global, derived: &[Derived], names: &mut Names) -> Result<(), NoMemory>
    ensures { OnOk result (names.new ≡ names.old ++ map (λ d. d.name) derived.now) }
{
    for factor in derived {
        names.push(Bytes::from_slice(alloc, factor.name.as_slice())?)?;
    }
    Ok(())
}

/// Tests the name of each derived factor against these columns, and those behind it.
///
/// # Errors
///
/// E34 at the name of the first that another column has; `NoMemory`.
pub(crate) fn check_names(
    alloc: Global,
    columns: Names,
    options: &[Phrase<'_>],
) -> Result<(), ParseStop>
    ensures ok { OnOk result (check_names columns options.now ≡ Ok tt) }
    ensures refused { IfErr result (IsRefused (check_names columns options.now)) }
{
    let mut columns = columns;
    for (i, option) in options.iter().enumerate() {
        if let Some(name) = derived_name(option) {
            let later = derived_names(alloc, &options[i + 1..])?;
            check_name(&columns, name, &later)?;
            columns.push(Bytes::from_slice(alloc, name.text())?)?;
        }
    }
    Ok(())
}

/// The name of a derived factor, if the option has one.
fn derived_name<'a>(option: &Phrase<'a>) -> Option<&'a Lexeme<'a>>
    ensures { MatchOption result (derived_name option.now ≡ None)
        (λ w. derived_name option.now ≡ Some w.now) }
{
    if option.begins(Symbol::OpenBracket) {
        return option.after(Symbol::CloseBracket).at(1);
    }
    None
}

/// Tests that a name is not that of one of these columns or of a later derived factor.
fn check_name(columns: &Names, name: &Lexeme<'_>, later: &Names) -> Result<(), Refusal>
    ensures { result ≡ check_name columns.now name.now later.now }
{
    let is_repeated = place_of(name.text(), columns.as_slice()).is_some()
        || place_of(name.text(), later.as_slice()).is_some();
    if is_repeated {
        return Err(name.refused(code::REPEATED_COLUMN));
    }
    Ok(())
}

/// The names of the derived factors of these options.
fn derived_names(alloc: Global, options: &[Phrase<'_>]) -> Result<Names, NoMemory>
    ensures { IfOk result (λ names. names ≡ derived_names options.now) }
{
    let mut names = Names::new(alloc);
    for option in options {
        if let Some(name) = derived_name(option) {
            names.push(Bytes::from_slice(alloc, name.text())?)?;
        }
    }
    Ok(names)
}
