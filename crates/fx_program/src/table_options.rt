ghost use Rattle.std.specs.Prelude.{◌≡◌, ◌==◌, ◌<◌, ◌≤◌, ◌^◌, IfOk, IfSome, Ok, Option, Some, codes, false, is_some};
ghost use Rattle.fx_program.specs.CommandLine.{bytes_of};
ghost use Rattle.fx_program.specs.Words.{after_prefix, once, within};
ghost use Rattle.fx_program.specs.TableWords.{
  AreOptions,
  add_groups,
  add_inside,
  add_nodes,
  add_order,
  by_inside,
  by_nodes,
  by_order,
  by_whole_plots,
  dimension,
  groups_of,
  inside_of,
  no_options,
  options_behind,
  order_named,
  with_option,
};

use crate::word_fault::{WordFault, WordFaultKind};
use crate::words::{once, within};
use fx_book::is_word;
use fx_table_book::Order;
use fx_table_lines::is_power;
use fx_vectors::MOST_FACTORS;

/// How the options begin.
const BLOCKS: &[u8] = b"--blocks=";

const WHOLE_PLOTS: &[u8] = b"--whole-plots=";

const INSIDE: &[u8] = b"--inside=";

const ORDER: &[u8] = b"--order=";

const NODES: &[u8] = b"--nodes=";

/// The greatest number of entries.
const MOST_ENTRIES: u64 = 5000000;

/// The options of a table, as far as they are given.
#[derive(Clone, Copy)]
pub(crate) struct TableOptions {
    /// The place of the next word.
    pub(crate) next: u32,
    pub(crate) groups: Option<Groups>,
    pub(crate) inside: Option<Inside>,
    pub(crate) order: Option<Order>,
    /// How many entries each book may have.
    pub(crate) nodes: Option<u64>,
}

/// Groups of runs: blocks or whole plots.
#[derive(Clone, Copy)]
pub(crate) struct Groups {
    pub(crate) are_whole_plots: bool,
    /// The dimension of the base.
    pub(crate) h: u8,
}

/// The factors that are inside the base.
#[derive(Clone, Copy)]
pub(crate) struct Inside {
    /// How many there are.
    pub(crate) count: u8,
    /// The place of the word that says it.
    pub(crate) word: u32,
}

/// The options of the words from the fifth on, for designs with q levels and m run indexes.
pub(crate) fn options_in(q: u8, m: u8, words: &[Vec<u8>]) -> Result<TableOptions, WordFault>
    ensures options { result ≡ options_behind q m (Ok no_options) (bytes_of words.now) }
    ensures sound { IfOk result (AreOptions m) }
{
    let mut given = TableOptions {
        next: 5,
        groups: None,
        inside: None,
        order: None,
        nodes: None,
    };
    for word in words {
        given = with_option(q, m, given, word.as_slice())?;
    }
    Ok(given)
}

/// The options with that of the next word.
fn with_option(q: u8, m: u8, given: TableOptions, word: &[u8]) -> Result<TableOptions, WordFault>
    requires { AreOptions m given }
    ensures options { result ≡ with_option q m given word.now }
    ensures sound { IfOk result (AreOptions m) }
{
    match word.strip_prefix(BLOCKS) {
        Some(digits) => add_groups(m, given, groups_of(q, m, false, digits)),
        None => by_whole_plots(q, m, given, word),
    }
}

/// The same for another option than `--blocks`.
fn by_whole_plots(q: u8, m: u8, given: TableOptions, word: &[u8]) -> Result<TableOptions, WordFault>
    requires { AreOptions m given }
    ensures options { result ≡ by_whole_plots q m given word.now (after_prefix (codes "--whole-plots=") word.now) }
    ensures sound { IfOk result (AreOptions m) }
{
    match word.strip_prefix(WHOLE_PLOTS) {
        Some(digits) => add_groups(m, given, groups_of(q, m, true, digits)),
        None => by_inside(m, given, word),
    }
}

/// The same for an option that says nothing of groups.
fn by_inside(m: u8, given: TableOptions, word: &[u8]) -> Result<TableOptions, WordFault>
    requires { AreOptions m given }
    ensures options { result ≡ by_inside given word.now (after_prefix (codes "--inside=") word.now) }
    ensures sound { IfOk result (AreOptions m) }
{
    match word.strip_prefix(INSIDE) {
        Some(digits) => add_inside(m, given, inside_of(given.next, digits)),
        None => by_order(m, given, word),
    }
}

/// The same for the options that each table has.
fn by_order(m: u8, given: TableOptions, word: &[u8]) -> Result<TableOptions, WordFault>
    requires { AreOptions m given }
    ensures options { result ≡ by_order given word.now (after_prefix (codes "--order=") word.now) }
    ensures sound { IfOk result (AreOptions m) }
{
    match word.strip_prefix(ORDER) {
        Some(name) => add_order(m, given, order_named(name)),
        None => by_nodes(m, given, word),
    }
}

/// The same for the last of the options.
fn by_nodes(m: u8, given: TableOptions, word: &[u8]) -> Result<TableOptions, WordFault>
    requires { AreOptions m given }
    ensures options { result ≡ by_nodes given (after_prefix (codes "--nodes=") word.now) }
    ensures sound { IfOk result (AreOptions m) }
{
    match word.strip_prefix(NODES) {
        Some(digits) => add_nodes(m, given, within(1, MOST_ENTRIES, digits)),
        None => Err(WordFault {
            kind: WordFaultKind::UnknownOption,
            word: given.next,
        }),
    }
}

/// The options with these groups.
fn add_groups(m: u8, given: TableOptions, value: Option<Groups>) -> Result<TableOptions, WordFault>
    requires options { AreOptions m given }
    requires value { IfSome value (λ x. (1 ≤ x.h) × (x.h < m)) }
    ensures options { result ≡ add_groups given (once given.next given.groups value) }
    ensures sound { IfOk result (AreOptions m) }
{
    let value = once(given.next, given.groups.is_some(), value)?;
    Ok(TableOptions {
        next: given.next + 1,
        groups: Some(value),
        inside: given.inside,
        order: given.order,
        nodes: given.nodes,
    })
}

/// The options with these factors inside.
fn add_inside(m: u8, given: TableOptions, value: Option<Inside>) -> Result<TableOptions, WordFault>
    requires options { AreOptions m given }
    requires value { IfSome value (λ x. (1 ≤ x.count) × (x.count ≤ 63)) }
    ensures options { result ≡ add_inside given (once given.next given.inside value) }
    ensures sound { IfOk result (AreOptions m) }
{
    let value = once(given.next, given.inside.is_some(), value)?;
    Ok(TableOptions {
        next: given.next + 1,
        groups: given.groups,
        inside: Some(value),
        order: given.order,
        nodes: given.nodes,
    })
}

/// The options with this order.
fn add_order(m: u8, given: TableOptions, value: Option<Order>) -> Result<TableOptions, WordFault>
    requires { AreOptions m given }
    ensures options { result ≡ add_order given (once given.next given.order value) }
    ensures sound { IfOk result (AreOptions m) }
{
    let value = once(given.next, given.order.is_some(), value)?;
    Ok(TableOptions {
        next: given.next + 1,
        groups: given.groups,
        inside: given.inside,
        order: Some(value),
        nodes: given.nodes,
    })
}

/// The options with this number of entries.
fn add_nodes(m: u8, given: TableOptions, value: Option<u64>) -> Result<TableOptions, WordFault>
    requires options { AreOptions m given }
    requires value { IfSome value (λ n. (1 ≤ n) × (n ≤ 5000000)) }
    ensures options { result ≡ add_nodes given (once given.next given.nodes value) }
    ensures sound { IfOk result (AreOptions m) }
{
    let value = once(given.next, given.nodes.is_some(), value)?;
    Ok(TableOptions {
        next: given.next + 1,
        groups: given.groups,
        inside: given.inside,
        order: given.order,
        nodes: Some(value),
    })
}

/// The groups of so many.
fn groups_of(q: u8, m: u8, are_whole_plots: bool, digits: &[u8]) -> Option<Groups>
    ensures groups { result ≡ groups_of q m are_whole_plots digits.now }
    ensures dimension { IfSome result (λ x. (1 ≤ x.h) × (x.h < m)) }
{
    match within(1, 1024, digits) {
        None => None,
        Some(n) => match dimension(q, m, n) {
            None => None,
            Some(h) => Some(Groups { are_whole_plots, h }),
        },
    }
}

/// The dimension of a base with so many groups.
fn dimension(q: u8, m: u8, n: u64) -> Option<u8>
    ensures dimension { result ≡ dimension q m (Some n) }
    ensures range { IfSome result (λ h. (1 ≤ h) × (h < m)) }
{
    (1..m).find(|h| is_power(q, *h, n))
}

/// The factors inside, by the word at this place.
fn inside_of(place: u32, digits: &[u8]) -> Option<Inside>
    ensures inside { result ≡ inside_of place digits.now }
    ensures factors { IfSome result (λ x. (1 ≤ x.count) × (x.count ≤ 63)) }
{
    match within(1, MOST_FACTORS as u64, digits) {
        None => None,
        Some(n) => Some(Inside {
            count: n as u8,
            word: place,
        }),
    }
}

/// The order of a name.
fn order_named(name: &[u8]) -> Option<Order>
    ensures { result ≡ order_named name.now }
{
    if is_word(name, b"FF") {
        return Some(Order::FactorsFirst);
    }
    if is_word(name, b"W1") {
        return Some(Order::ChengWuFirst);
    }
    if is_word(name, b"W2") {
        return Some(Order::ChengWuSecond);
    }
    if is_word(name, b"SCF") {
        return Some(Order::SitterChenFeder);
    }
    if is_word(name, b"CLEAR") {
        return Some(Order::MostClear);
    }
    None
}
