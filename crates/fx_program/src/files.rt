ghost use Rattle.std.specs.Prelude.{◌≡◌, ◌≤◌, ◌++◌, ◌∷◌, [], false, length, All, OnOk, Some};
ghost use Rattle.fx_statements.specs.Steps.{meaning_of};
ghost use Rattle.fx_answer.specs.Outcomes.{HasShape};
ghost use Rattle.fx_program.specs.Ended.{IsEnded};
ghost use Rattle.fx_program.specs.Files.{book_files, book_name, design_files, file_name, file_of, output_lines, plan_file, plan_files, plan_lines};
ghost use Rattle.fx_program.specs.Plans.{asked_by, plan_after};
ghost use Rattle.fx_program.specs.Outside.{ShelvesFiles, shelf_view};

use crate::fold::shelve_fold;
use crate::output_lines::put_plan_lines;
use crate::plans::{AskedPlan, AskedPlans, asked_plan, plan_at};
use crate::session::Session;
use crate::stop::Stop;
use crate::streaming::stream_plan;
use crate::words::append;
use arrayvec::ArrayVec;
use fx_base::{Bytes, Shelf, shelve_pieces};
use fx_book::book_pieces;
use fx_plan::Plan;
use fx_statements::{Outcome, Step};
use fx_vectors::Books;
use itoa::Buffer;
use std::thread::Threads;

/// The greatest length of a plan's name: an OUT name of 32 bytes, and `.csv`.
const PLAN_NAME: usize = 36;

/// The greatest length of a book's name: `step`, a number, a hyphen, a number and `.book`.
const BOOK_NAME: usize = 64;

/// Shelves the files of the step of this number with this outcome: its books in the order of their
/// questions, then its plans in the order of its OUTPUT statements, then its fold-over. The statements
/// are added to the earlier ones, and the lines of the plans are appended.
pub(crate) fn shelve_files<'a, R: Threads + Sync, F: Shelf>(
    session: &Session<'_, R>,
    number: usize,
    step: &'a Step,
    outcome: &Outcome,
    plans: &mut AskedPlans<'a>,
    lines: &mut Bytes,
    shelf: &mut F,
) -> Result<(), Stop>
    requires outcome { IsEnded step.now outcome.now }
    requires ended { F.begun shelf.old ≡ false }
    ensures files { ShelvesFiles (book_files number outcome.now.books
        ++ design_files session.now.seed number plans.old (meaning_of step.now) outcome.now.matrix)
        (shelf_view F.Shelf shelf.old) (shelf_view F.Shelf shelf.new) result }
    ensures plans { OnOk result
        (plans.new ≡ plans.old ++ asked_by (meaning_of step.now) outcome.now.matrix) }
    ensures lines { OnOk result
        (lines.new
        ≡ lines.old
        ++ output_lines session.now.seed plans.old (asked_by (meaning_of step.now) outcome.now.matrix)) }
{
    shelve_books(session, number, &outcome.books, shelf)?;
    shelve_plans(session, step, outcome, plans, lines, shelf)?;
    shelve_fold(session, number, step, outcome, shelf)
}

/// Shelves the books of the step of this number.
fn shelve_books<R: Threads + Sync, F: Shelf>(
    session: &Session<'_, R>,
    number: usize,
    books: &Books,
    shelf: &mut F,
) -> Result<(), Stop>
    requires shapes { All HasShape books.now }
    requires ended { F.begun shelf.old ≡ false }
    ensures { ShelvesFiles (book_files number books.now)
        (shelf_view F.Shelf shelf.old) (shelf_view F.Shelf shelf.new) result }
{
    for named in books.as_slice() {
        let name = book_name(number, named.question);
        let pieces = book_pieces(session.rt, session.alloc, &named.book, session.threads)?;
        shelve_pieces(shelf, name.as_slice(), pieces.as_slice())?;
    }
    Ok(())
}

/// Shelves the plans of a step with this outcome, in the order of its OUTPUT statements.
fn shelve_plans<'a, R, F: Shelf>(
    session: &Session<'_, R>,
    step: &'a Step,
    outcome: &Outcome,
    plans: &mut AskedPlans<'a>,
    lines: &mut Bytes,
    shelf: &mut F,
) -> Result<(), Stop>
    requires outcome { IsEnded step.now outcome.now }
    requires ended { F.begun shelf.old ≡ false }
    ensures files { ShelvesFiles
        (plan_files session.now.seed plans.old (asked_by (meaning_of step.now) outcome.now.matrix))
        (shelf_view F.Shelf shelf.old) (shelf_view F.Shelf shelf.new) result }
    ensures plans { OnOk result
        (plans.new ≡ plans.old ++ asked_by (meaning_of step.now) outcome.now.matrix) }
    ensures lines { OnOk result
        (lines.new
        ≡ lines.old
        ++ output_lines session.now.seed plans.old (asked_by (meaning_of step.now) outcome.now.matrix)) }
{
    for output in step.outputs.as_slice() {
        shelve_plan(
            session,
            asked_plan(step, output, outcome),
            plans,
            lines,
            shelf,
        )?;
    }
    Ok(())
}

/// Shelves the plan of one OUTPUT statement more, if it is written, and appends its lines.
fn shelve_plan<'a, R, F: Shelf>(
    session: &Session<'_, R>,
    asked: AskedPlan<'a>,
    plans: &mut AskedPlans<'a>,
    lines: &mut Bytes,
    shelf: &mut F,
) -> Result<(), Stop>
    requires ended { F.begun shelf.old ≡ false }
    ensures files { ShelvesFiles (plan_file session.now.seed plans.old asked.entry)
        (shelf_view F.Shelf shelf.old) (shelf_view F.Shelf shelf.new) result }
    ensures plans { OnOk result (plans.new ≡ plans.old ++ asked.entry ∷ []) }
    ensures lines { OnOk result
        (lines.new
        ≡ lines.old
        ++ plan_lines session.now.seed asked.entry (plan_after session.now.seed plans.old asked.entry)) }
{
    let number = plans.len();
    plans.push(asked)?;
    match plan_at(session.alloc, session.seed, plans.as_slice(), number)? {
        Some(plan) => shelve_made(session, plans.get(number), &plan, lines, shelf),
        None => Ok(()),
    }
}

/// Shelves the plan of an OUTPUT statement, and appends its lines.
fn shelve_made<R, F: Shelf>(
    session: &Session<'_, R>,
    asked: &AskedPlan<'_>,
    plan: &Plan,
    lines: &mut Bytes,
    shelf: &mut F,
) -> Result<(), Stop>
    requires ended { F.begun shelf.old ≡ false }
    ensures files { ShelvesFiles (file_of asked.now.output.name (Some plan.now))
        (shelf_view F.Shelf shelf.old) (shelf_view F.Shelf shelf.new) result }
    ensures lines { OnOk result
        (lines.new ≡ lines.old ++ plan_lines session.now.seed asked.now (Some plan.now)) }
{
    put_plan_lines(session.alloc, lines, asked, plan.len(), session.seed)?;
    let name = file_name(asked.output.name.as_slice());
    stream_plan(session.alloc, name.as_slice(), plan, shelf)
}

/// The name of the file of the book of a question, in the step of this number.
pub(crate) fn book_name(number: usize, question: u32) -> ArrayVec<u8, BOOK_NAME>
    ensures { result.items ≡ book_name number question }
{
    let mut step = Buffer::new();
    let mut asked = Buffer::new();
    let mut file = ArrayVec::new();
    append(&mut file, b"step");
    append(&mut file, step.format(number).as_bytes());
    append(&mut file, b"-");
    append(&mut file, asked.format(question).as_bytes());
    append(&mut file, b".book");
    file
}

/// The name of the file of an OUTPUT statement, which has 1 to 32 bytes.
pub(crate) fn file_name(name: &[u8]) -> ArrayVec<u8, PLAN_NAME>
    requires { length name.now ≤ 32 }
    ensures { result.items ≡ file_name name.now }
{
    let mut file = ArrayVec::new();
    for byte in name {
        file.push(byte.to_ascii_lowercase());
    }
    append(&mut file, b".csv");
    file
}
