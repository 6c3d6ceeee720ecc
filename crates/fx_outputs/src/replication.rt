// An option is `POINTREP = n` or `DESIGNREP = n`, or has a name in place of the number, which has
// index 2.

ghost use Rattle.std.specs.Prelude.{◌≡◌, ◌*◌, slice_get, IfErr, IfOk, OnOk, Err, Ok, Some};
ghost use Rattle.fx_text.specs.Numbers.{number_of};
ghost use Rattle.fx_text.specs.Refusals.{IsRefused};
ghost use Rattle.fx_outputs.specs.Replications.{check_number, check_rows, rep_at, replication_in_range, reps_of};

use crate::earlier::EarlierPlans;
use crate::option::option_of;
use fx_language::{Symbol, code};
use fx_text::{Lexeme, ParseStop, Phrase, Refusal};
use std::alloc::Global;

/// How often each run, or the whole list of them, comes in a plan.
#[derive(Clone, Copy, PartialEq, Eq)]
pub enum Rep {
    /// So many times, from 1 to 200,000.
    Times(u32),
    /// Once with each row of the plan of the OUTPUT statement of this number, counted from 0 in the
    /// program.
    Plan(u32),
}

/// The most rows of a file, and so the greatest replication.
const MOST_ROWS: u128 = 200_000;

/// What POINTREP and DESIGNREP say.
///
/// # Errors
///
/// E20 at a number that is not from 1 to 200,000, POINTREP's first; then E33 at a name that no earlier
/// plan has, POINTREP's first. And `NoMemory`.
pub fn reps(
    alloc: Global,
    earlier: &EarlierPlans,
    options: &[Phrase<'_>],
) -> Result<(Rep, Rep), ParseStop>
    ensures ok { IfOk result (λ reps. reps_of earlier.now options.now ≡ Ok reps) }
    ensures refused { IfErr result (IsRefused (reps_of earlier.now options.now)) }
{
    let point = option_of(Symbol::Pointrep, options);
    let design = option_of(Symbol::Designrep, options);
    check_number(&point)?;
    check_number(&design)?;
    let pointrep = replication(alloc, earlier, &point)?;
    let designrep = replication(alloc, earlier, &design)?;
    Ok((pointrep, designrep))
}

/// Tests that the number of a replication, if it has one, is from 1 to 200,000.
fn check_number(option: &Phrase<'_>) -> Result<(), Refusal>
    ensures { result ≡ check_number (slice_get option.now 2) }
{
    match option.at(2) {
        None => Ok(()),
        Some(word) => check_word(word),
    }
}

fn check_word(word: &Lexeme<'_>) -> Result<(), Refusal>
    ensures { result ≡ check_number (Some word.now) }
{
    if !word.is(Symbol::Whole) {
        return Ok(());
    }
    match in_range(word) {
        Ok(_) => Ok(()),
        Err(refusal) => Err(refusal),
    }
}

/// A number from 1 to 200,000.
fn in_range(number: &Lexeme<'_>) -> Result<u32, Refusal>
    ensures { result ≡ replication_in_range number.now (number_of number.now) }
{
    match number.number() {
        Some(n) if (1..=MOST_ROWS).contains(&n) => Ok(n as u32),
        Some(_) => Err(number.refused(code::INVALID_REPLICATION)),
        None => Err(number.refused(code::INVALID_REPLICATION)),
    }
}

/// A number, 1 where nothing is written, or the earlier plan that is named.
fn replication(alloc: Global, earlier: &EarlierPlans, option: &Phrase<'_>) -> Result<Rep, ParseStop>
    ensures ok { IfOk result (λ rep. rep_at earlier.now (slice_get option.now 2) ≡ Ok rep) }
    ensures refused { IfErr result (IsRefused (rep_at earlier.now (slice_get option.now 2))) }
{
    match option.at(2) {
        None => Ok(Rep::Times(1)),
        Some(word) => replication_by(alloc, earlier, word),
    }
}

fn replication_by(
    alloc: Global,
    earlier: &EarlierPlans,
    word: &Lexeme<'_>,
) -> Result<Rep, ParseStop>
    ensures ok { IfOk result (λ rep. rep_at earlier.now (Some word.now) ≡ Ok rep) }
    ensures refused { IfErr result (IsRefused (rep_at earlier.now (Some word.now))) }
{
    if word.is(Symbol::Whole) {
        return Ok(Rep::Times(in_range(word)?));
    }
    match earlier.find(alloc, word.text())? {
        Some(number) => Ok(Rep::Plan(number)),
        None => Err(ParseStop::Refused(word.refused(code::UNKNOWN_PLAN))),
    }
}

/// How many rows a file has.
pub fn row_count(runs: u32, pointrep: u32, designrep: u32) -> u128
    ensures { result ≡ runs * pointrep * designrep }
{
    u128::from(runs) * u128::from(pointrep) * u128::from(designrep)
}

/// Tests that a file has at most 200,000 rows.
///
/// # Errors
///
/// E21 at the OUT name, where it has more.
pub fn check_rows(
    runs: u32,
    pointrep: u32,
    designrep: u32,
    name: &Lexeme<'_>,
) -> Result<(), Refusal>
    ensures { result ≡ check_rows runs pointrep designrep name.now }
{
    if row_count(runs, pointrep, designrep) <= MOST_ROWS {
        return Ok(());
    }
    Err(name.refused(code::TOO_MANY_ROWS))
}
