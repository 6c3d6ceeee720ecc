ghost use Rattle.std.specs.Prelude.{◌≡◌, ◌<◌, ◌≤◌, ◌^◌, nat_le, IfOk, IfSome, IsTrue, false};
ghost use Rattle.fx_designs.specs.Galois.{is_order};
ghost use Rattle.fx_settings.specs.Powers.{greatest};
ghost use Rattle.fx_statements.specs.Valid.{most_factors_of};
ghost use Rattle.fx_program.specs.CommandLine.{HasOrder, HasShapes, HasThreads, bytes_of};
ghost use Rattle.fx_program.specs.TableWords.{
  AreNumbers,
  AreOptions,
  IsAsked,
  asked_by,
  asked_of,
  by_groups,
  can_span,
  first_line,
  limited,
  tables_with,
  with_indexes,
  with_inside,
  with_levels,
  without_inside,
};

use crate::catalogue_words::most_factors;
use crate::table_options::{TableOptions, options_in};
use crate::word_fault::{WordFault, WordFaultKind};
use crate::words::{Settings, number_at, order_at};
use fx_settings::greatest;
use fx_table_book::Order;

/// How many entries each book may have, where no option says it.
const USUAL_ENTRIES: u64 = 1000000;

/// The most vectors over the factors.
const MOST_WORDS: u128 = 1 << 120;

/// What a table is asked for.
#[derive(Clone, Copy, PartialEq, Eq)]
pub struct AskedTable {
    /// How many levels the factors have.
    pub q: u8,
    /// How many run indexes the designs have.
    pub m: u8,
    /// The greatest number of factors outside the base.
    pub upto: u8,
    /// The dimension of the base, which is 0 where the runs are in one group.
    pub h: u8,
    /// How many factors are inside the base: none where the groups are blocks.
    pub inside: u8,
    /// What designs are compared by.
    pub order: Order,
    /// How many entries each book may have.
    pub entries: u64,
}

/// The settings of `tables`, by the words after it: the numbers of levels, of run indexes and of the most factors
/// outside the base, and then the options. Takes no memory.
pub(crate) fn tables_with(words: &[Vec<u8>]) -> Result<Settings, WordFault>
    ensures threads { IfOk result HasThreads }
    ensures order { IfOk result HasOrder }
    ensures shapes { IfOk result HasShapes }
    ensures settings { result ≡ tables_with (bytes_of words.now) }
{
    let asked = asked_of(words)?;
    Ok(Settings::Tables { asked })
}

/// What the words ask of a table: the numbers of levels, of run indexes and of the most factors outside the base, and
/// then the options.
fn asked_of(words: &[Vec<u8>]) -> Result<AskedTable, WordFault>
    ensures asked { result ≡ asked_of (bytes_of words.now) }
    ensures valid { IfOk result IsAsked }
{
    let Some((word, others)) = words.split_first() else {
        return Err(missing(2));
    };
    let q = order_at(2, word.as_slice())?;
    with_levels(q, others)
}

/// The same where the number of levels is read.
fn with_levels(q: u8, words: &[Vec<u8>]) -> Result<AskedTable, WordFault>
    requires { IsTrue (is_order q) }
    ensures asked { result ≡ with_levels q (bytes_of words.now) }
    ensures valid { IfOk result IsAsked }
{
    let Some((word, others)) = words.split_first() else {
        return Err(missing(3));
    };
    let m = number_at(3, 1, greatest(q), word.as_slice())?;
    with_indexes(q, m, others)
}

/// The same where the number of run indexes is read too.
fn with_indexes(q: u8, m: u8, words: &[Vec<u8>]) -> Result<AskedTable, WordFault>
    requires levels { IsTrue (is_order q) }
    requires indexes { (1 ≤ m) × (m ≤ greatest q) }
    ensures asked { result ≡ with_indexes q m (bytes_of words.now) }
    ensures valid { IfOk result IsAsked }
{
    let Some((word, options)) = words.split_first() else {
        return Err(missing(4));
    };
    let upto = number_at(4, 1, most_factors(q), word.as_slice())?;
    let given = options_in(q, m, options)?;
    by_groups(q, m, upto, given)
}

/// The same where all words are read. Factors are inside where there are whole plots.
fn by_groups(q: u8, m: u8, upto: u8, given: TableOptions) -> Result<AskedTable, WordFault>
    requires levels { IsTrue (is_order q) }
    requires indexes { (1 ≤ m) × (m ≤ greatest q) }
    requires factors { upto ≤ most_factors_of q false }
    requires options { AreOptions m given }
    ensures asked { result ≡ by_groups q m upto given given.groups }
    ensures valid { IfOk result IsAsked }
{
    match given.groups {
        None => without_inside(q, m, upto, given, 0),
        Some(groups) => {
            if groups.are_whole_plots {
                with_inside(q, m, upto, given, groups.h)
            } else {
                without_inside(q, m, upto, given, groups.h)
            }
        }
    }
}

/// A table of designs with a base of dimension h and no factor inside.
fn without_inside(
    q: u8,
    m: u8,
    upto: u8,
    given: TableOptions,
    h: u8,
) -> Result<AskedTable, WordFault>
    requires levels { IsTrue (is_order q) }
    requires indexes { (1 ≤ m) × (m ≤ greatest q) }
    requires factors { upto ≤ most_factors_of q false }
    requires options { AreOptions m given }
    requires dimension { h < m }
    ensures asked { result ≡ without_inside q m upto given h given.inside }
    ensures valid { IfOk result IsAsked }
{
    match given.inside {
        None => limited(asked_by(q, m, upto, given, h, 0)),
        Some(_) => Err(missing(given.next)),
    }
}

/// A table of split plots with a base of dimension h.
fn with_inside(q: u8, m: u8, upto: u8, given: TableOptions, h: u8) -> Result<AskedTable, WordFault>
    requires levels { IsTrue (is_order q) }
    requires indexes { (1 ≤ m) × (m ≤ greatest q) }
    requires factors { upto ≤ most_factors_of q false }
    requires options { AreOptions m given }
    requires dimension { (1 ≤ h) × (h < m) }
    ensures asked { result ≡ with_inside q m upto given h given.inside }
    ensures valid { IfOk result IsAsked }
{
    match given.inside {
        None => Err(missing(given.next)),
        Some(inside) => {
            if can_span(q, h, inside.count) {
                limited(asked_by(q, m, upto, given, h, inside.count))
            } else {
                Err(invalid(inside.word))
            }
        }
    }
}

/// A table with these numbers and options.
fn asked_by(q: u8, m: u8, upto: u8, given: TableOptions, h: u8, inside: u8) -> AskedTable
    requires { AreOptions m given }
    ensures asked { result ≡ asked_by q m upto given h inside }
    ensures budget { (1 ≤ result.entries) × (result.entries ≤ 5000000) }
{
    AskedTable {
        q,
        m,
        upto,
        h,
        inside,
        order: given.order.unwrap_or(Order::FactorsFirst),
        entries: given.nodes.unwrap_or(USUAL_ENTRIES),
    }
}

/// The table, if its last line is within the limits, and not before the first.
fn limited(asked: AskedTable) -> Result<AskedTable, WordFault>
    requires numbers { AreNumbers asked }
    requires factors { asked.upto ≤ most_factors_of asked.q false }
    ensures asked { result ≡ limited asked }
    ensures valid { IfOk result IsAsked }
{
    let factors = asked.upto + asked.inside;
    if first_line(asked) <= asked.upto
        && factors <= most_factors(asked.q)
        && has_few_words(asked.q, factors)
    {
        Ok(asked)
    } else {
        Err(invalid(4))
    }
}

/// The number of factors outside the base of the first line: with fewer the runs would be copies of others.
pub(crate) fn first_line(asked: AskedTable) -> u8
    requires indexes { asked.m ≤ 10 }
    requires dimension { asked.h < asked.m }
    ensures { result ≡ first_line asked }
{
    if asked.h == 0 {
        asked.m + 1
    } else {
        asked.m - asked.h
    }
}

/// Whether so many factors, no two alike, can span a base of dimension h.
fn can_span(q: u8, h: u8, count: u8) -> bool
    requires levels { IsTrue (is_order q) }
    requires dimension { h ≤ 10 }
    ensures { result ≡ can_span q h count }
{
    h <= count && u128::from(count) * u128::from(q - 1) < u128::from(q).pow(u32::from(h))
}

/// Whether there are at most 2^120 vectors over so many factors.
fn has_few_words(q: u8, factors: u8) -> bool
    requires levels { IsTrue (is_order q) }
    requires factors { factors ≤ most_factors_of q false }
    ensures { result ≡ nat_le (q ^ factors) (2 ^ 120) }
{
    u128::from(q).pow(u32::from(factors)) <= MOST_WORDS
}

/// A number is missing at this place.
fn missing(word: u32) -> WordFault
    ensures { result ≡ record { kind = WordFaultKind.MissingNumber; word = word } }
{
    WordFault {
        kind: WordFaultKind::MissingNumber,
        word,
    }
}

/// The number of the word at this place is none, or not in its range.
fn invalid(word: u32) -> WordFault
    ensures { result ≡ record { kind = WordFaultKind.InvalidNumber; word = word } }
{
    WordFault {
        kind: WordFaultKind::InvalidNumber,
        word,
    }
}
