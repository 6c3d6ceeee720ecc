ghost use Rattle.std.specs.Prelude.{◌≡◌, ◌≤◌, ◌+◌, ◌^◌, ◌++◌, codes, decimal, if◌then◌else◌, length, OnOk};
ghost use Rattle.std.specs.List.{flat_map};
ghost use Rattle.fx_derived.specs.Codes.{ArePlaces};
ghost use Rattle.fx_outputs.specs.DerivedFactors.{AreDerived};
ghost use Rattle.fx_program.specs.Files.{book_lines, book_name, derived_line, derived_lines, output_line, seed_note};

use crate::files::{book_name, file_name};
use crate::plans::AskedPlan;
use fx_base::{Bytes, NoMemory, put, put_number};
use fx_derived::levels_balanced;
use fx_statements::{Derived, OutputSpec, Shuffle};
use fx_vectors::{Books, Matrix};
use std::alloc::Global;

/// Appends the lines of the books of the step of this number.
///
/// # Errors
///
/// `NoMemory`; `out` then holds some first bytes of the lines after what it held.
pub(crate) fn put_book_lines(out: &mut Bytes, number: usize, books: &Books) -> Result<(), NoMemory>
    ensures { OnOk result (out.new ≡ out.old ++ book_lines number books.now) }
{
    for named in books.as_slice() {
        put_book_line(out, number, named.question)?;
    }
    Ok(())
}

/// Appends the line of the book of a question.
fn put_book_line(out: &mut Bytes, number: usize, question: u32) -> Result<(), NoMemory>
    ensures { OnOk result
        (out.new ≡ out.old ++ (codes "book " ++ (book_name number question ++ codes "\n"))) }
{
    put(out, b"book ")?;
    put(out, book_name(number, question).as_slice())?;
    put(out, b"\n")
}

/// Appends the lines of the plan of an OUTPUT statement, which has so many rows: its own, and those of
/// its derived factors.
///
/// # Errors
///
/// `NoMemory`; `out` then holds some first bytes of the lines after what it held.
pub(crate) fn put_plan_lines(
    alloc: Global,
    out: &mut Bytes,
    asked: &AskedPlan<'_>,
    rows: usize,
    seed: u64,
) -> Result<(), NoMemory>
    ensures { OnOk result
        (out.new
        ≡ out.old
        ++ (output_line seed rows asked.now.output
        ++ derived_lines asked.now.matrix asked.now.output.derived)) }
{
    put_output_line(out, asked.output, rows, seed)?;
    match &asked.matrix {
        Some(matrix) => put_derived_lines(alloc, out, matrix, asked.output.derived.as_slice()),
        None => Ok(()),
    }
}

/// Appends the lines of derived factors of a whole matrix.
fn put_derived_lines(
    alloc: Global,
    out: &mut Bytes,
    matrix: &Matrix,
    derived: &[Derived],
) -> Result<(), NoMemory>
    requires complete { length matrix.now.rows ≡ matrix.now.shape.s + matrix.now.shape.t }
    requires derived { AreDerived matrix.now.shape.q matrix.now.shape.s derived.now }
    ensures { OnOk result (out.new ≡ out.old ++ flat_map (derived_line matrix.now) derived.now) }
{
    for factor in derived {
        put_derived_line(alloc, out, matrix, factor)?;
    }
    Ok(())
}

/// Appends the line of a derived factor: its levels, and whether they are balanced.
fn put_derived_line(
    alloc: Global,
    out: &mut Bytes,
    matrix: &Matrix,
    factor: &Derived,
) -> Result<(), NoMemory>
    requires complete { length matrix.now.rows ≡ matrix.now.shape.s + matrix.now.shape.t }
    requires places { ArePlaces matrix.now.shape.s factor.now.places }
    requires some { 2 ≤ length factor.now.places }
    requires few { length factor.now.places ≤ 4 }
    requires levels { matrix.now.shape.q ^ length factor.now.places ≤ 64 }
    ensures { OnOk result (out.new ≡ out.old ++ derived_line matrix.now factor.now) }
{
    let places = factor.places.as_slice();
    let balanced = levels_balanced(alloc, matrix, places)?;
    put(out, b"derived ")?;
    put(out, factor.name.as_slice())?;
    put(out, b" ")?;
    put_number(out, u128::from(matrix.shape().q).pow(places.len() as u32))?;
    put(out, b" levels ")?;
    put(out, balance_word(balanced))?;
    put(out, b"\n")
}

fn balance_word(balanced: bool) -> &'static [u8]
    ensures { result.now ≡ (if balanced then codes "balanced" else codes "not balanced") }
{
    if balanced {
        b"balanced"
    } else {
        b"not balanced"
    }
}

/// Appends the line of a plan of so many rows: its file, and the seed by which it is shuffled.
fn put_output_line(
    out: &mut Bytes,
    output: &OutputSpec,
    rows: usize,
    seed: u64,
) -> Result<(), NoMemory>
    requires { length output.now.name ≤ 32 }
    ensures { OnOk result (out.new ≡ out.old ++ output_line seed rows output.now) }
{
    put(out, b"output ")?;
    put(out, file_name(output.name.as_slice()).as_slice())?;
    put(out, b" ")?;
    put_number(out, rows as u128)?;
    put(out, b" rows")?;
    put_seed_note(out, output.shuffle, seed)?;
    put(out, b"\n")
}

/// Appends the seed of a plan that is shuffled: its own, or else the program's.
fn put_seed_note(out: &mut Bytes, shuffle: Shuffle, seed: u64) -> Result<(), NoMemory>
    ensures { OnOk result (out.new ≡ out.old ++ seed_note seed shuffle) }
{
    match shuffle {
        Shuffle::Kept => Ok(()),
        Shuffle::Default { values: _values } => put_seed(out, seed),
        Shuffle::Seed {
            seed: own,
            values: _values,
        } => put_seed(out, own),
    }
}

fn put_seed(out: &mut Bytes, seed: u64) -> Result<(), NoMemory>
    ensures { OnOk result (out.new ≡ out.old ++ (codes " seed " ++ decimal seed)) }
{
    put(out, b" seed ")?;
    put_number(out, u128::from(seed))
}
