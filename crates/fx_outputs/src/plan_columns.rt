ghost use Rattle.std.specs.Prelude.{◌≡◌, ◌≤◌, ◌<◌, ◌++◌, [], length, take, slice_get, slice_index_or, IfOk, IfErr, OnOk, Ok, Err};
ghost use Rattle.fx_text.specs.Refusals.{IsRefused};
ghost use Rattle.fx_outputs.specs.Earlier.{file_columns, rep_columns};
ghost use Rattle.fx_outputs.specs.FileColumns.{check_columns, check_plan, meet};

use crate::context::OutputContext;
use crate::derived::Derived;
use crate::earlier::{EarlierPlan, EarlierPlans};
use crate::option::option_of;
use crate::own_columns::{check_names, other_columns, own_columns};
use crate::replication::Rep;
use fx_base::{Bytes, NoMemory};
use fx_language::{Symbol, code};
use fx_text::{Names, ParseStop, Phrase, Refusal, place_of};
use std::alloc::Global;

/// Tests that no two columns of a file have the same name. `reps` is what POINTREP and DESIGNREP say,
/// `block_name` the text's name of the block column, which may be empty.
///
/// # Errors
///
/// E34 at the name of the first derived factor that another column has; at POINTREP's plan, at
/// DESIGNREP's plan, where one of its columns is another of the file. And `NoMemory`.
pub(crate) fn check_columns(
    alloc: Global,
    context: &OutputContext<'_>,
    earlier: &EarlierPlans,
    reps: (Rep, Rep),
    block_name: &[u8],
    derived: &[Derived],
    options: &[Phrase<'_>],
) -> Result<(), ParseStop>
    ensures ok { OnOk result
        (check_columns context.now earlier.now reps block_name.now derived.now options.now ≡ Ok tt) }
    ensures refused { IfErr result (IsRefused
        (check_columns context.now earlier.now reps block_name.now derived.now options.now)) }
{
    let point = rep_columns(alloc, earlier, reps.0)?;
    let design = rep_columns(alloc, earlier, reps.1)?;
    let mut columns = other_columns(alloc, context, block_name, derived)?;
    push_copies(alloc, point.as_slice(), &mut columns)?;
    push_copies(alloc, design.as_slice(), &mut columns)?;
    check_names(alloc, columns, options)?;
    let own = own_columns(alloc, context, block_name, derived)?;
    check_plan(&option_of(Symbol::Pointrep, options), &point, &own, &design)?;
    check_plan(
        &option_of(Symbol::Designrep, options),
        &design,
        &own,
        &point,
    )?;
    Ok(())
}

/// Tests the columns of a named plan against a file's own and those of the other named plan. `option`
/// is POINTREP or DESIGNREP with its value.
fn check_plan(
    option: &Phrase<'_>,
    columns: &Names,
    own: &Names,
    others: &Names,
) -> Result<(), Refusal>
    ensures { result ≡ check_plan (slice_get option.now 2) columns.now own.now others.now }
{
    match option.at(2) {
        None => Ok(()),
        Some(word) => {
            if meet(columns, own) || meet(columns, others) {
                return Err(word.refused(code::REPEATED_COLUMN));
            }
            Ok(())
        }
    }
}

/// Whether one of these names is among the others.
fn meet(names: &Names, others: &Names) -> bool
    ensures { result ≡ meet names.now others.now }
{
    names.as_slice().iter().any(|name| place_of(name.as_slice(), others.as_slice()).is_some())
}

/// The columns that a replication adds to a file.
fn rep_columns(alloc: Global, earlier: &EarlierPlans, rep: Rep) -> Result<Names, NoMemory>
    ensures { IfOk result (λ names. names ≡ rep_columns (file_columns earlier.now) rep) }
{
    let plans = earlier.as_slice();
    let mut names = Names::new(alloc);
    push_rep(alloc, plans, plans.len(), rep, &mut names)?;
    Ok(names)
}

/// Adds the columns that a replication adds, which may name one of the first `before` plans.
#[cycle(columns)]
fn push_rep(
    alloc: Global,
    plans: &[EarlierPlan],
    before: usize,
    rep: Rep,
    names: &mut Names,
) -> Result<(), NoMemory>
    requires { before ≤ length plans.now }
    ensures { OnOk result
        (names.new ≡ names.old ++ rep_columns (file_columns (take before plans.now)) rep) }
{
    match rep {
        Rep::Times(_) => Ok(()),
        Rep::Plan(number) => {
            let number = number as usize;
            if number >= before {
                return Ok(());
            }
            push_plan(alloc, plans, number, names)
        }
    }
}

/// Adds the columns of a plan's file. What it names has a smaller number.
#[cycle(columns)]
fn push_plan(
    alloc: Global,
    plans: &[EarlierPlan],
    number: usize,
    names: &mut Names,
) -> Result<(), NoMemory>
    requires { number < length plans.now }
    ensures { OnOk result
        (names.new ≡ names.old ++ slice_index_or (file_columns plans.now) number []) }
{
    let plan = &plans[number];
    push_copies(alloc, plan.own.as_slice(), names)?;
    push_rep(alloc, plans, number, plan.pointrep, names)?;
    push_rep(alloc, plans, number, plan.designrep, names)
}

/// Adds copies of these names.
fn push_copies(alloc: Global, more: &[Bytes], names: &mut Names) -> Result<(), NoMemory>
    ensures { OnOk result (names.new ≡ names.old ++ more.now) }
{
    for name in more {
        names.push(Bytes::from_slice(alloc, name.as_slice())?)?;
    }
    Ok(())
}
