ghost use Rattle.std.specs.Prelude.{◌≡◌, ◌<◌, ◌++◌, false, IfOk, OnOk};
ghost use Rattle.fx_statements.specs.Questions.{conclusion_in};
ghost use Rattle.fx_statements.specs.Steps.{meaning_of};
ghost use Rattle.fx_alias.specs.Sections.{step_lines};
ghost use Rattle.fx_plan.specs.Steps.{IsDesignOf};
ghost use Rattle.fx_program.specs.Ended.{IsEnded, ended_lines, ended_output, ended_status, given_lines};
ghost use Rattle.fx_program.specs.Files.{book_lines};
ghost use Rattle.fx_program.specs.Outside.{Writes, shelf_view, sink_view};
ghost use Rattle.fx_program.specs.Plans.{asked_by};

use crate::files::shelve_files;
use crate::fold::put_fold_line;
use crate::listing::list;
use crate::output_lines::put_book_lines;
use crate::plans::AskedPlans;
use crate::session::Session;
use crate::status::{met_status, status_of};
use crate::stop::Stop;
use fx_alias::{
    BlockMarks, examine_listing, fold_listing, given_listing, head_listing, rules_listing,
};
use fx_base::{Bytes, NoMemory, Shelf, Sink, put};
use fx_statements::{Outcome, Step};
use fx_vectors::Matrix;
use std::alloc::Global;
use std::thread::Threads;

/// Where the design of a step is from.
#[derive(Clone, Copy)]
pub enum Origin {
    /// A search.
    Search,
    /// Rules: whether its runs meet the model of the step, where that has one.
    Rules(Option<bool>),
}

/// A step that has ended, with its number: with the outcome of its search, or with a given design.
#[derive(Drop)]
pub(crate) struct Ended<'a> {
    pub(crate) number: usize,
    pub(crate) step: &'a Step,
    pub(crate) outcome: Outcome,
    pub(crate) origin: Origin,
}

/// Gives what a step that has ended leads to: shelves its books, its plans and its fold-over, and then
/// lists it. Its OUTPUT statements are added to the earlier ones.
pub(crate) fn give<'a, R: Threads + Sync, K: Sink, F: Shelf>(
    session: &Session<'_, R>,
    ended: &Ended<'a>,
    plans: &mut AskedPlans<'a>,
    listing: &mut K,
    shelf: &mut F,
) -> Result<u8, Stop>
    requires begun { F.begun shelf.old ≡ false }
    requires ended { IsEnded ended.now.step.now ended.now.outcome }
    ensures output { let step = meaning_of ended.now.step.now in let outcome = ended.now.outcome in
        Writes (ended_output session.now.seed ended.now.number plans.old step outcome.books outcome.matrix
        (ended_lines ended.now.origin ended.now.number step outcome) (ended_status ended.now.origin outcome))
        (sink_view K.Sink listing.old) (sink_view K.Sink listing.new)
        (shelf_view F.Shelf shelf.old) (shelf_view F.Shelf shelf.new) result }
    ensures plans { OnOk result
        (plans.new ≡ plans.old ++ asked_by (meaning_of ended.now.step.now) ended.now.outcome.matrix) }
{
    let (number, step, outcome) = (ended.number, ended.step, &ended.outcome);
    let mut named = Bytes::new(session.alloc);
    shelve_files(session, number, step, outcome, plans, &mut named, shelf)?;
    let mut lines = lines_of(session.alloc, ended)?;
    put(&mut lines, named.as_slice())?;
    put_fold_line(&mut lines, number, step, outcome)?;
    list(listing, lines.as_slice(), status_by(ended))
}

/// The lines of a step that has ended, but for those that name its plans.
fn lines_of(alloc: Global, ended: &Ended<'_>) -> Result<Bytes, NoMemory>
    requires { IsEnded ended.now.step.now ended.now.outcome }
    ensures { IfOk result (λ lines.
        lines
        ≡ ended_lines ended.now.origin ended.now.number (meaning_of ended.now.step.now) ended.now.outcome) }
{
    match ended.origin {
        Origin::Search => searched_lines(alloc, ended.number, ended.step, &ended.outcome),
        Origin::Rules(is_met) => match &ended.outcome.matrix {
            Some(matrix) => given_lines(alloc, ended.number, ended.step, is_met, matrix),
            None => Ok(Bytes::new(alloc)),
        },
    }
}

/// The same of a step that was searched for.
fn searched_lines(
    alloc: Global,
    number: usize,
    step: &Step,
    outcome: &Outcome,
) -> Result<Bytes, NoMemory>
    requires { IsEnded step.now outcome.now }
    ensures { IfOk result (λ lines.
        lines
        ≡ step_lines number (meaning_of step.now) (book_lines number outcome.now.books)
        (conclusion_in outcome.now)) }
{
    let mut lines = Bytes::new(alloc);
    head_listing(alloc, number, step, outcome, &mut lines)?;
    match &outcome.matrix {
        Some(matrix) => {
            rules_listing(alloc, step, matrix, &mut lines)?;
            put_book_lines(&mut lines, number, &outcome.books)?;
            examine_listing(alloc, BlockMarks::Without, step, matrix, &mut lines)?;
            fold_listing(alloc, step, matrix, &mut lines)?;
            Ok(lines)
        }
        None => {
            put_book_lines(&mut lines, number, &outcome.books)?;
            Ok(lines)
        }
    }
}

/// The same of a step whose design rules give.
fn given_lines(
    alloc: Global,
    number: usize,
    step: &Step,
    is_met: Option<bool>,
    matrix: &Matrix,
) -> Result<Bytes, NoMemory>
    requires { IsDesignOf step.now matrix.now }
    ensures { IfOk result (λ lines.
        lines ≡ given_lines number (meaning_of step.now) is_met matrix.now) }
{
    let mut lines = Bytes::new(alloc);
    given_listing(alloc, number, step, matrix, is_met, &mut lines)?;
    rules_listing(alloc, step, matrix, &mut lines)?;
    examine_listing(alloc, BlockMarks::With, step, matrix, &mut lines)?;
    fold_listing(alloc, step, matrix, &mut lines)?;
    Ok(lines)
}

/// The status of a step that has ended.
fn status_by(ended: &Ended<'_>) -> u8
    ensures status { result ≡ ended_status ended.now.origin ended.now.outcome }
    ensures low { result < 4 }
{
    match ended.origin {
        Origin::Search => status_of(ended.outcome.end),
        Origin::Rules(is_met) => met_status(is_met),
    }
}
