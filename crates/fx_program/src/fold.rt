ghost use Rattle.std.specs.Prelude.{◌≡◌, ◌++◌, ◌*◌, ◌^◌, codes, decimal, false, Some, OnOk};
ghost use Rattle.fx_statements.specs.Steps.{meaning_of};
ghost use Rattle.fx_statements.specs.declared.fold.Fold.TheVariants.{Factors};
ghost use Rattle.fx_program.specs.Ended.{IsEnded};
ghost use Rattle.fx_plan.specs.Steps.{IsDesignOf};
ghost use Rattle.fx_program.specs.Files.{fold_file, fold_line, fold_name};
ghost use Rattle.fx_program.specs.Outside.{ShelvesFiles, shelf_view};

use crate::session::Session;
use crate::stop::Stop;
use crate::words::append;
use arrayvec::ArrayVec;
use fx_base::{Bytes, NoMemory, Shelf, put, put_number, shelve};
use fx_foldover::fold_runs;
use fx_plan::plain_plan;
use fx_statements::{Fold, Outcome, Step};
use fx_vectors::{Matrix, Vector};
use itoa::Buffer;

/// The greatest length of the name of a fold-over: `step`, a number and `-fold.csv`.
const FOLD_NAME: usize = 64;

/// Shelves the fold-over of the step of this number with this outcome, where the step asks for one:
/// the runs, and after them the same runs with the levels of the folded factors exchanged. Without a
/// matrix there is none.
pub(crate) fn shelve_fold<R, F: Shelf>(
    session: &Session<'_, R>,
    number: usize,
    step: &Step,
    outcome: &Outcome,
    shelf: &mut F,
) -> Result<(), Stop>
    requires outcome { IsEnded step.now outcome.now }
    requires ended { F.begun shelf.old ≡ false }
    ensures { ShelvesFiles (fold_file number step.now.factors step.now.fold outcome.now.matrix)
        (shelf_view F.Shelf shelf.old) (shelf_view F.Shelf shelf.new) result }
{
    match &step.fold {
        Fold::Without => Ok(()),
        Fold::Factors(folded) => match &outcome.matrix {
            Some(matrix) => shelve_runs(session, number, step, matrix, folded, shelf),
            None => Ok(()),
        },
    }
}

/// Shelves the fold-over of a design of the step.
fn shelve_runs<R, F: Shelf>(
    session: &Session<'_, R>,
    number: usize,
    step: &Step,
    matrix: &Matrix,
    folded: &Vector,
    shelf: &mut F,
) -> Result<(), Stop>
    requires design { IsDesignOf step.now matrix.now }
    requires fold { step.now.fold ≡ Factors folded.now }
    requires ended { F.begun shelf.old ≡ false }
    ensures { ShelvesFiles (fold_file number step.now.factors (Factors folded.now) (Some matrix.now))
        (shelf_view F.Shelf shelf.old) (shelf_view F.Shelf shelf.new) result }
{
    let name = fold_name(number);
    let runs = fold_runs(session.alloc, matrix, folded)?;
    let content = plain_plan(session.alloc, &step.factors, &runs)?;
    shelve(shelf, name.as_slice(), content.as_slice())?;
    Ok(())
}

/// Appends the line of the fold-over of the step of this number with this outcome, if there is one.
///
/// # Errors
///
/// `NoMemory`; `out` then holds some first bytes of the line after what it held.
pub(crate) fn put_fold_line(
    out: &mut Bytes,
    number: usize,
    step: &Step,
    outcome: &Outcome,
) -> Result<(), NoMemory>
    ensures { OnOk result
        (out.new ≡ out.old ++ fold_line number step.now.fold outcome.now.matrix) }
{
    match &step.fold {
        Fold::Without => Ok(()),
        Fold::Factors(_) => match &outcome.matrix {
            Some(matrix) => put_line(out, number, matrix),
            None => Ok(()),
        },
    }
}

/// Appends the line of the fold-over of a design: its file, and its rows.
fn put_line(out: &mut Bytes, number: usize, matrix: &Matrix) -> Result<(), NoMemory>
    ensures { OnOk result
        (out.new
        ≡ out.old
        ++ (codes "output "
        ++ (fold_name number
        ++ (codes " " ++ (decimal (2 * matrix.now.shape.q ^ matrix.now.shape.m) ++ codes " rows\n"))))) }
{
    put(out, b"output ")?;
    put(out, fold_name(number).as_slice())?;
    put(out, b" ")?;
    put_number(out, 2 * u128::from(matrix.shape().runs()))?;
    put(out, b" rows\n")
}

/// The name of the file of the fold-over of the step of this number.
fn fold_name(number: usize) -> ArrayVec<u8, FOLD_NAME>
    ensures { result.items ≡ fold_name number }
{
    let mut step = Buffer::new();
    let mut file = ArrayVec::new();
    append(&mut file, b"step");
    append(&mut file, step.format(number).as_bytes());
    append(&mut file, b"-fold.csv");
    file
}
