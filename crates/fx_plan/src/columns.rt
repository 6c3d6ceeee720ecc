ghost use Rattle.std.specs.Prelude.{◌≡◌, ◌≤◌, ◌^◌, ◌==◌, ◌∷◌, ◌++◌, [], All, IfOk, OnOk, length, map};
ghost use Rattle.std.specs.List.{list_any};
ghost use Rattle.fx_outputs.specs.DerivedFactors.{free_places, is_bracketed};
ghost use Rattle.fx_plan.specs.Columns.{column_names, values_or_codes};
ghost use Rattle.fx_plan.specs.Plans.{values_at};

use fx_base::{Bytes, NoMemory};
use fx_runs::default_values;
use fx_statements::{Derived, Names, Recode};
use itoa::Buffer;
use std::alloc::Global;

/// The places, from 1, of the factors that stand in no brackets, of `s` factors.
pub(crate) fn free_places(alloc: Global, s: u8, derived: &[Derived]) -> Result<Bytes, NoMemory>
    ensures { IfOk result (λ free. free ≡ free_places s derived.now) }
{
    let mut free = Bytes::new(alloc);
    for i in 0..s {
        if !is_bracketed(derived, i + 1) {
            free.push(i + 1)?;
        }
    }
    Ok(free)
}

/// Adds the names of the columns of factors that stand in no brackets, and of derived factors.
pub(crate) fn put_column_names(
    alloc: Global,
    factors: &Names,
    free: &[u8],
    derived: &[Derived],
    names: &mut Names,
) -> Result<(), NoMemory>
    requires { free.now ≡ free_places (length factors.now) derived.now }
    ensures { OnOk result (names.new ≡ names.old ++ column_names factors.now derived.now) }
{
    for place in free {
        let name = factors.get(usize::from(*place) - 1);
        names.push(Bytes::from_slice(alloc, name.as_slice())?)?;
    }
    for factor in derived {
        names.push(Bytes::from_slice(alloc, factor.name.as_slice())?)?;
    }
    Ok(())
}

/// The places of the factors that each column has the codes of.
pub(crate) fn column_places(
    alloc: Global,
    free: &[u8],
    derived: &[Derived],
) -> Result<Names, NoMemory>
    ensures { IfOk result (λ columns. columns
        ≡ map (λ p. p ∷ []) free.now ++ map (λ d. d.places) derived.now) }
{
    let mut columns = Names::new(alloc);
    for place in free {
        columns.push(Bytes::from_slice(alloc, &[*place])?)?;
    }
    for factor in derived {
        columns.push(Bytes::from_slice(alloc, factor.places.as_slice())?)?;
    }
    Ok(columns)
}

/// The values of the codes of each column.
pub(crate) fn column_values(
    alloc: Global,
    q: u8,
    recodes: &[Recode],
    free: &[u8],
    derived: &[Derived],
) -> Result<Vec<Vec<Bytes>>, NoMemory>
    requires few { All (λ d. length d.places ≤ 4) derived.now }
    requires levels { All (λ d. q ^ length d.places ≤ 64) derived.now }
    ensures { IfOk result (λ values. map (λ v. v.items) values.items
        ≡ map (λ p. values_at q recodes.now p) free.now
        ++ map (λ d. values_or_codes (q ^ length d.places) d.values) derived.now) }
{
    let mut values = Vec::new(alloc);
    for place in free {
        push_list(&mut values, values_at(alloc, q, *place, recodes)?)?;
    }
    for factor in derived {
        let levels = u32::from(q).pow(factor.places.len() as u32);
        push_list(&mut values, values_or_codes(alloc, levels, &factor.values)?)?;
    }
    Ok(values)
}

/// Adds a list of texts.
pub(crate) fn push_list(lists: &mut Vec<Vec<Bytes>>, list: Vec<Bytes>) -> Result<(), NoMemory>
    ensures { OnOk result (map (λ v. v.items) lists.new.items
        ≡ map (λ v. v.items) lists.old.items ++ list.items ∷ []) }
{
    if lists.push(list).is_err() {
        return Err(NoMemory);
    }
    Ok(())
}

/// Whether the factor at a place, counted from 1, stands in brackets.
fn is_bracketed(derived: &[Derived], place: u8) -> bool
    ensures { result ≡ is_bracketed derived.now place }
{
    for factor in derived {
        if stands_in(factor.places.as_slice(), place) {
            return true;
        }
    }
    false
}

fn stands_in(places: &[u8], place: u8) -> bool
    ensures { result ≡ list_any (λ p. p == place) places.now }
{
    places.iter().any(|p| *p == place)
}

/// The values of the factor at a place, counted from 1.
fn values_at(alloc: Global, q: u8, place: u8, recodes: &[Recode]) -> Result<Vec<Bytes>, NoMemory>
    ensures { IfOk result (λ values. values.items ≡ values_at q recodes.now place) }
{
    for recode in recodes {
        if recode.place == place {
            return copied(alloc, &recode.values);
        }
    }
    Ok(default_values(alloc, q)?.into_vec())
}

/// The values of a derived factor: its own, or else the derived codes.
fn values_or_codes(alloc: Global, levels: u32, own: &Names) -> Result<Vec<Bytes>, NoMemory>
    ensures { IfOk result (λ values. values.items ≡ values_or_codes levels own.now) }
{
    if own.is_empty() {
        return numbers(alloc, levels);
    }
    copied(alloc, own)
}

/// The decimals of the numbers from 0 below `n`.
fn numbers(alloc: Global, n: u32) -> Result<Vec<Bytes>, NoMemory>
    ensures { IfOk result (λ values. values.items ≡ values_or_codes n []) }
{
    let mut values = Vec::new(alloc);
    for k in 0..n {
        push(alloc, &mut values, Buffer::new().format(k).as_bytes())?;
    }
    Ok(values)
}

fn copied(alloc: Global, names: &Names) -> Result<Vec<Bytes>, NoMemory>
    ensures { IfOk result (λ values. values.items ≡ names.now) }
{
    let mut values = Vec::new(alloc);
    for name in names.as_slice() {
        push(alloc, &mut values, name.as_slice())?;
    }
    Ok(values)
}

/// Adds a text.
pub(crate) fn push(alloc: Global, values: &mut Vec<Bytes>, value: &[u8]) -> Result<(), NoMemory>
    ensures { OnOk result (values.new.items ≡ values.old.items ++ value.now ∷ []) }
{
    let value = Bytes::from_slice(alloc, value)?;
    if values.push(value).is_err() {
        return Err(NoMemory);
    }
    Ok(())
}
