ghost use Rattle.std.specs.Prelude.{◌≡◌, ◌≤◌, ◌==◌, ◌++◌, ℕ, List, if◌then◌else◌, codes, decimal, length, OnOk};
ghost use Rattle.fx_designs.specs.Patterns.{resolution_of};
ghost use Rattle.fx_vectors.specs.Shape.{IsShape};
ghost use Rattle.fx_catalogue.specs.Listing.{IsShort, count_text, counts_from, ending_text, head_text, line_text};

use crate::line::Line;
use fx_base::{Bytes, NoMemory, put, put_number};
use fx_vectors::{Pattern, Shape};
use fx_words::resolution;

/// Appends the first line of a catalogue of designs with the levels and runs of this shape.
///
/// # Errors
///
/// `NoMemory`; `out` then holds a prefix of the line after what it held.
pub fn put_head(out: &mut Bytes, shape: Shape) -> Result<(), NoMemory>
    requires { IsShape shape }
    ensures { OnOk result (out.new ≡ out.old ++ head_text shape.q shape.m) }
{
    put(out, b"catalogue levels ")?;
    put_number(out, u128::from(shape.q))?;
    put(out, b" runs ")?;
    put_number(out, u128::from(shape.runs()))?;
    put(out, b"\n")
}

/// Appends the line of a catalogue for this number of factors, within this budget.
///
/// # Errors
///
/// `NoMemory`; `out` then holds a prefix of the line after what it held.
pub fn put_line(out: &mut Bytes, factors: u8, line: &Line, budget: u64) -> Result<(), NoMemory>
    requires { IsShort line.now }
    ensures { OnOk result (out.new ≡ out.old ++ line_text budget factors line.now) }
{
    put(out, b"factors ")?;
    put_number(out, u128::from(factors))?;
    put(out, b" ")?;
    put_ending(out, line, budget)?;
    put(out, b"\n")
}

/// Appends what a line has after the number of factors.
fn put_ending(out: &mut Bytes, line: &Line, budget: u64) -> Result<(), NoMemory>
    requires { IsShort line.now }
    ensures { OnOk result (out.new ≡ out.old ++ ending_text budget line.now) }
{
    match line {
        Line::Least {
            matrix: _,
            pattern,
            nodes,
            book: _,
        } => put_least(out, pattern, *nodes),
        Line::Nothing { nodes, book: _ } => put_nothing(out, *nodes),
        Line::Budget => put_budget(out, budget),
    }
}

/// Appends the nodes, the resolution and the pattern of a design.
fn put_least(out: &mut Bytes, pattern: &Pattern, nodes: u64) -> Result<(), NoMemory>
    requires { length pattern.now ≤ 254 }
    ensures { OnOk result (out.new ≡ out.old
        ++ (codes "nodes " ++ (decimal nodes
        ++ (codes " resolution " ++ (decimal (resolution_of pattern.now) ++ counts_from 1 pattern.now))))) }
{
    put(out, b"nodes ")?;
    put_number(out, u128::from(nodes))?;
    put_pattern(out, pattern)
}

/// Appends the resolution and the word-length pattern of a design.
///
/// # Errors
///
/// `NoMemory`.
pub fn put_pattern(out: &mut Bytes, pattern: &Pattern) -> Result<(), NoMemory>
    requires { length pattern.now ≤ 254 }
    ensures { OnOk result (out.new ≡ out.old
        ++ (codes " resolution " ++ (decimal (resolution_of pattern.now) ++ counts_from 1 pattern.now))) }
{
    put(out, b" resolution ")?;
    put_number(out, u128::from(resolution(pattern)))?;
    put_counts(out, pattern)
}

/// Appends the nodes, and that there is no design.
fn put_nothing(out: &mut Bytes, nodes: u64) -> Result<(), NoMemory>
    ensures { OnOk result (out.new ≡ out.old ++ (codes "nodes " ++ (decimal nodes ++ codes " none"))) }
{
    put(out, b"nodes ")?;
    put_number(out, u128::from(nodes))?;
    put(out, b" none")
}

/// Appends that the budget ended.
fn put_budget(out: &mut Bytes, budget: u64) -> Result<(), NoMemory>
    ensures { OnOk result
        (out.new ≡ out.old ++ (codes "budget ended after " ++ (decimal budget ++ codes " nodes"))) }
{
    put(out, b"budget ended after ")?;
    put_number(out, u128::from(budget))?;
    put(out, b" nodes")
}

/// Appends the number of words of each weight that has some.
fn put_counts(out: &mut Bytes, pattern: &Pattern) -> Result<(), NoMemory>
    ensures { OnOk result (out.new ≡ out.old ++ counts_from 1 pattern.now) }
{
    let words = pattern.as_slice();
    for i in 0..words.len() {
        put_count(out, i + 1, words[i])?;
    }
    Ok(())
}

/// Appends the number of words of a weight, unless it is zero.
fn put_count(out: &mut Bytes, weight: usize, words: u128) -> Result<(), NoMemory>
    ensures { OnOk result ((rest : List ℕ)
        → out.new ++ rest ≡ out.old ++ (if words == 0 then rest else count_text weight words ++ rest)) }
{
    if words == 0 {
        return Ok(());
    }
    put(out, b" A")?;
    put_number(out, weight as u128)?;
    put(out, b" ")?;
    put_number(out, words)
}
