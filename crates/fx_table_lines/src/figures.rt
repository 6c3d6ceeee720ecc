ghost use Rattle.std.specs.Prelude.{◌≡◌, ◌≤◌, ◌++◌, codes, decimal, OnOk};
ghost use Rattle.fx_strata.specs.Orders.{are_words};
ghost use Rattle.fx_table_book.specs.Tables.{IsBase, order_of, part_of, parts_of, strata_of};
ghost use Rattle.fx_table_lines.specs.Figures.{
  are_unclear,
  clear_count,
  clear_text,
  count_text,
  counts_text,
  entry_of,
  figures_text,
  letter,
  resolution_in,
  resolution_text,
  words_in,
};

use fx_base::{Bytes, NoMemory, put, put_number};
use fx_table_book::{Base, Order, Part, parts};
use fx_vectors::Pattern;
use std::alloc::Global;

/// Appends what is said of a design with this key.
pub(crate) fn put_figures(
    alloc: Global,
    out: &mut Bytes,
    base: Base,
    order: Order,
    key: &Pattern,
) -> Result<(), NoMemory>
    requires { IsBase base }
    ensures { OnOk result (out.new ≡ out.old ++ figures_text base order key.now) }
{
    let parts = parts(alloc, base, order)?;
    let factors = base.w + base.n;
    put_resolution(
        out,
        resolution_in(parts.as_slice(), key.as_slice(), factors),
    )?;
    put_clear(
        out,
        order,
        base.q,
        factors,
        unclear_in(parts.as_slice(), key.as_slice()),
    )?;
    put_counts(out, parts.as_slice(), key.as_slice(), false, factors)?;
    put_counts(out, parts.as_slice(), key.as_slice(), true, factors)
}

/// The entry of a key for the words of a weight: the constant ones, or the confounded ones.
fn words_in(parts: &[Part], key: &[u128], confounded: bool, weight: u8) -> u128
    ensures { result ≡ words_in (parts_of parts.now) key.now confounded weight }
{
    for i in 0..parts.len() {
        if i == key.len() {
            return 0;
        }
        if are_words(parts[i], confounded, weight) {
            return key[i];
        }
    }
    0
}

/// The entry of a key for the words of two factors that are not clear.
fn unclear_in(parts: &[Part], key: &[u128]) -> u128
    ensures { result ≡ entry_of are_unclear (parts_of parts.now) key.now }
{
    for i in 0..parts.len() {
        if i == key.len() {
            return 0;
        }
        if are_unclear(parts[i]) {
            return key[i];
        }
    }
    0
}

/// The least weight of constant words.
fn resolution_in(parts: &[Part], key: &[u128], factors: u8) -> Option<u8>
    requires { factors ≤ 63 }
    ensures { result ≡ resolution_in (parts_of parts.now) key.now factors }
{
    (1..factors + 1).find(|k| words_in(parts, key, false, *k) != 0)
}

/// Appends the words of each weight that has some.
fn put_counts(
    out: &mut Bytes,
    parts: &[Part],
    key: &[u128],
    confounded: bool,
    factors: u8,
) -> Result<(), NoMemory>
    requires { factors ≤ 63 }
    ensures { OnOk result (out.new ≡ out.old ++ counts_text (parts_of parts.now) key.now confounded 1 factors) }
{
    for k in 1..factors + 1 {
        put_count(out, confounded, k, words_in(parts, key, confounded, k))?;
    }
    Ok(())
}

/// Whether a part is that of words that are not clear.
fn are_unclear(part: Part) -> bool
    ensures { result ≡ are_unclear (part_of part) }
{
    match part {
        Part::Constant { weight: _ } => false,
        Part::Confounded { weight: _ } => false,
        Part::Unclear => true,
    }
}

/// Whether a part is that of such words.
fn are_words(part: Part, confounded: bool, weight: u8) -> bool
    ensures { result ≡ are_words confounded weight (part_of part) }
{
    match part {
        Part::Constant { weight: own } => !confounded && own == weight,
        Part::Confounded { weight: own } => confounded && own == weight,
        Part::Unclear => false,
    }
}

/// Appends the number of words of a weight, unless it is 0.
fn put_count(out: &mut Bytes, confounded: bool, weight: u8, words: u128) -> Result<(), NoMemory>
    ensures { OnOk result (out.new ≡ out.old ++ count_text confounded weight words) }
{
    if words == 0 {
        return Ok(());
    }
    put_letter(out, confounded)?;
    put_number(out, u128::from(weight))?;
    put(out, b" ")?;
    put_number(out, words)
}

/// Appends the letter of constant words, or that of confounded ones.
fn put_letter(out: &mut Bytes, confounded: bool) -> Result<(), NoMemory>
    ensures { OnOk result (out.new ≡ out.old ++ letter confounded) }
{
    if confounded {
        return put(out, b" B");
    }
    put(out, b" A")
}

/// Appends the least weight of constant words, or that there are none.
fn put_resolution(out: &mut Bytes, resolution: Option<u8>) -> Result<(), NoMemory>
    ensures { OnOk result (out.new ≡ out.old ++ resolution_text resolution) }
{
    match resolution {
        None => put(out, b" no defining words"),
        Some(k) => put_least(out, k),
    }
}

/// Appends the least weight of constant words.
fn put_least(out: &mut Bytes, k: u8) -> Result<(), NoMemory>
    ensures { OnOk result (out.new ≡ out.old ++ (codes " resolution " ++ decimal k)) }
{
    put(out, b" resolution ")?;
    put_number(out, u128::from(k))?;
    Ok(())
}

/// Appends how many components of interactions of two factors are clear, where the order compares them.
fn put_clear(
    out: &mut Bytes,
    order: Order,
    q: u8,
    factors: u8,
    unclear: u128,
) -> Result<(), NoMemory>
    requires levels { 1 ≤ q }
    ensures { OnOk result (out.new ≡ out.old ++ clear_text order q factors unclear) }
{
    match order {
        Order::FactorsFirst | Order::ChengWuFirst => Ok(()),
        Order::ChengWuSecond | Order::SitterChenFeder => Ok(()),
        Order::MostClear => {
            put(out, b" clear ")?;
            put_number(out, clear_count(q, factors, unclear))
        }
    }
}

/// How many components of interactions of two factors are clear.
fn clear_count(q: u8, factors: u8, unclear: u128) -> u128
    requires { 1 ≤ q }
    ensures { result ≡ clear_count q factors unclear }
{
    let s = u128::from(factors);
    let pairs = s * s.saturating_sub(1) / 2;
    (pairs * u128::from(q - 1)).saturating_sub(unclear)
}
