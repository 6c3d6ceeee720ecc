ghost use Rattle.std.specs.Prelude.{◌≡◌, ◌++◌, ◌==◌, ℕ, List, codes, if◌then◌else◌, OnErr, OnOk};
ghost use Rattle.fx_designs.specs.Patterns.{pattern_of};
ghost use Rattle.fx_vectors.specs.Shape.{dimensions_of};
ghost use Rattle.fx_alias.specs.Patterns.{pattern_lines, words_line, words_lines};
ghost use Rattle.fx_components.specs.Lines.{or_none};

use fx_base::{Bytes, NoMemory, put, put_number};
use fx_vectors::{Matrix, Pattern};
use fx_words::pattern_of;
use std::alloc::Global;

/// Appends the section of the word-length pattern of a design: how many words of each weight it has
/// (Fries and Hunter).
///
/// # Errors
///
/// `NoMemory`; `out` is then as before.
pub fn pattern_listing(alloc: Global, matrix: &Matrix, out: &mut Bytes) -> Result<(), NoMemory>
    ensures ok { OnOk result
        (out.new
        ≡ out.old
        ++ pattern_lines (pattern_of (dimensions_of matrix.now.shape) matrix.now.rows)) }
    ensures err { OnErr result (out.new ≡ out.old) }
{
    let mut lines = Bytes::new(alloc);
    put_section(alloc, matrix, &mut lines)?;
    put(out, lines.as_slice())
}

/// Appends the section.
fn put_section(alloc: Global, matrix: &Matrix, out: &mut Bytes) -> Result<(), NoMemory>
    ensures { OnOk result
        (out.new
        ≡ out.old
        ++ pattern_lines (pattern_of (dimensions_of matrix.now.shape) matrix.now.rows)) }
{
    let pattern = pattern_of(alloc, matrix)?;
    put(out, b"aberration\n")?;
    put_pattern(out, &pattern)
}

/// Appends the lines of a pattern, or that there are no words.
fn put_pattern(out: &mut Bytes, pattern: &Pattern) -> Result<(), NoMemory>
    ensures { OnOk result (out.new ≡ out.old ++ or_none (words_lines (codes "A") 1 pattern.now)) }
{
    let before = out.len();
    put_words(out, b"A", pattern)?;
    if out.len() == before {
        return put(out, b"  none\n");
    }
    Ok(())
}

/// Appends a line for each weight that has words, by the letter of the pattern.
pub(crate) fn put_words(out: &mut Bytes, letter: &[u8], pattern: &Pattern) -> Result<(), NoMemory>
    ensures { OnOk result (out.new ≡ out.old ++ words_lines letter.now 1 pattern.now) }
{
    let words = pattern.as_slice();
    for i in 0..words.len() {
        put_weight(out, letter, i + 1, words[i])?;
    }
    Ok(())
}

/// Appends how many words of a weight there are, where there is one.
fn put_weight(out: &mut Bytes, letter: &[u8], weight: usize, words: u128) -> Result<(), NoMemory>
    ensures { OnOk result ((rest : List ℕ)
        → out.new ++ rest
        ≡ out.old ++ (if words == 0 then rest else words_line letter.now weight words ++ rest)) }
{
    if words == 0 {
        return Ok(());
    }
    put(out, b"  ")?;
    put(out, letter)?;
    put_number(out, weight as u128)?;
    put(out, b" ")?;
    put_number(out, words)?;
    put(out, b"\n")
}
