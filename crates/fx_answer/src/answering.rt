ghost use Rattle.std.specs.Prelude.{◌≡◌, ◌<◌, ◌≤◌, ◌+◌, ◌-◌, Option, IfOk, is_some};
ghost use Rattle.fx_designs.specs.Answers.{answer};
ghost use Rattle.fx_designs.specs.Problems.{Problem};
ghost use Rattle.fx_vectors.specs.Shape.{IsShape, dimensions_of};
ghost use Rattle.fx_vectors.specs.Question.{problem_of};
ghost use Rattle.fx_search.specs.Asked.{IsAnswer};
ghost use Rattle.fx_search.specs.Standing.{best_rows};
ghost use Rattle.fx_statements.specs.Steps.{Meaning, meaning_of};
ghost use Rattle.fx_statements.specs.Questions.{
  concluded,
  conclusion_in,
  cut_short,
  ends_with,
  question_for,
  reached_beside,
  reached_by,
  until,
  Found,
};
ghost use Rattle.fx_answer.specs.Outcomes.{IsOutcome};
ghost use Rattle.fx_answer.specs.StepClaims.{ClaimsHold};
ghost use Rattle.fx_answer.specs.Asking.{HaveComeTo, IsTurnOf, LeadsTo, questions_below};
ghost use Rattle.fx_answer.specs.Standing.{IsOf, IsOutcomeOf, IsShapeOf, IsWhole, StandsFor};

use crate::booking::{add_absence, add_answer, question_number};
use crate::question::{highest, lowest, question_for, resolution_wanted};
use fx_base::NoMemory;
use fx_board::{Alone, Asked, Gate, ask_after};
use fx_search::forbidden_vectors_of;
use fx_statements::{End, Outcome, Size, Step};
use fx_vectors::{Books, Matrix, Question, Shape};
use std::alloc::Global;
use std::thread::Threads;

/// What the questions before have come to, which are finished.
#[derive(Drop)]
struct Finished {
    /// The last design that was found.
    found: Option<Matrix>,
    /// The resolution of the question that it answers, or 0.
    reached: u8,
    /// The nodes of all together.
    nodes: u64,
    /// The books of those that have one.
    books: Books,
}

/// The outcome of a step, by the answers of its questions, which are asked in order within its budget
/// of nodes: the last design that is found; that no rule matrix at all meets what is asked; or,
/// exactly where the questions have more nodes together than the budget, that the budget ended, with
/// the best matrix so far, if there is one. With it come the books of the finished questions without an
/// answer or for a least pattern.
///
/// Each question is searched by 1 to 64 threads; their number changes nothing.
///
/// # Errors
///
/// `NoMemory`.
pub fn answer<R: Threads + Sync, G: Gate>(
    rt: &R,
    alloc: Global,
    step: &Step,
    threads: u8,
    gate: &G,
) -> Result<Outcome, NoMemory>
    requires { (0 < threads) × (threads ≤ 64) }
    ensures outcome { IfOk result (IsOutcome (meaning_of step.now)) }

    // What is claimed of the outcome holds of all rule matrices, canonical or not: that none meets what is
    // asked, or none is better.
    ensures claims { IfOk result (λ outcome. ClaimsHold (meaning_of step.now) (conclusion_in outcome)) }
{
    let mut n = lowest(step);
    // One list serves all questions: they differ in runs, blocks or resolution alone.
    let words = forbidden_vectors_of(alloc, &question_for(alloc, step, n)?)?;
    let mut finished = Finished {
        found: None,
        reached: 0,
        nodes: 0,
        books: Books::new(alloc),
    };
    loop {
        let question = question_for(alloc, step, n)?;
        let left = step.settings.budget - finished.nodes;
        let few = Alone::few();
        let asked = ask_after(rt, alloc, &question, &words, left, threads, few, gate)?;
        match follow(alloc, step, n, question, asked, finished)? {
            Course::Ends(outcome) => return Ok(outcome),
            Course::GoesOn(more) => finished = more,
        }
        n += 1;
    }
}

/// What the answer of a question leads to: the outcome of the step, or the next question.
#[derive(Drop)]
enum Course {
    Ends(Outcome),
    GoesOn(Finished),
}

/// Where this answer of the question for `n` leads, after those below, which are finished.
fn follow(
    alloc: Global,
    step: &Step,
    n: u8,
    question: Question,
    asked: Asked,
    finished: Finished,
) -> Result<Course, NoMemory>
    requires turn { IsTurnOf (meaning_of step.now) n }
    requires finished { HaveComeTo (meaning_of step.now) (questions_below (meaning_of step.now) n) finished }
    requires problem { problem_of question ≡ question_for (meaning_of step.now) n }
    requires of_step { IsShapeOf (meaning_of step.now) question.shape }
    requires answer { IsAnswer question (step.now.settings.budget - finished.nodes) asked }
    ensures { IfOk result (LeadsTo (meaning_of step.now) n) }
{
    let shape = question.shape;
    let number = question_number(step, n);
    let reached = resolution_wanted(&question.demands);
    let mut books = finished.books;
    match asked {
        Asked::Found {
            matrix,
            nodes,
            marks,
        } => {
            add_answer(alloc, &mut books, number, question, &matrix, marks)?;
            let finished = Finished {
                found: Some(matrix),
                reached,
                nodes: finished.nodes + nodes,
                books,
            };
            Ok(go_on(step, n, shape, true, finished))
        }
        Asked::Nothing { nodes, marks } => {
            add_absence(&mut books, number, question, marks)?;
            let finished = Finished {
                found: finished.found,
                reached: finished.reached,
                nodes: finished.nodes + nodes,
                books,
            };
            Ok(go_on(step, n, shape, false, finished))
        }
        Asked::Budget { best } => {
            let reached = reached_beside(&best, finished.reached);
            let left = best.or(finished.found);
            let budget = step.settings.budget;
            Ok(Course::Ends(cut_short(shape, left, reached, budget, books)))
        }
    }
}

/// Ends the asking after the question for `n`, which is finished, or goes on to the next one.
fn go_on(step: &Step, n: u8, shape: Shape, is_answered: bool, finished: Finished) -> Course
    requires turn { IsTurnOf (meaning_of step.now) n }
    requires finished { HaveComeTo (meaning_of step.now) (questions_below (meaning_of step.now) (n + 1)) finished }
    requires shape { IsShapeOf (meaning_of step.now) shape }
    requires dimensions { (question_for (meaning_of step.now) n).dimensions ≡ dimensions_of shape }
    requires answered { is_answered ≡ is_some (answer (question_for (meaning_of step.now) n)) }
    ensures { LeadsTo (meaning_of step.now) n result }
{
    if n == highest(step) || is_last(step.settings.size, is_answered) {
        return Course::Ends(concluded(shape, finished));
    }
    Course::GoesOn(finished)
}

/// Whether no further question is asked after one that has an answer, or has none.
fn is_last(size: Size, is_answered: bool) -> bool
    ensures { result ≡ ends_with (until size) is_answered }
{
    match size {
        Size::Minimum => is_answered,
        Size::Runs { .. } => !is_answered,
    }
}

/// The outcome of finished questions, the last of which has this shape: the last design that was
/// found, if any.
fn concluded(shape: Shape, finished: Finished) -> Outcome
    requires shape { IsShape shape }
    requires whole { IsWhole finished.found }
    ensures concluded { (p : Problem) (last : Option Found)
        → p.dimensions ≡ dimensions_of shape
        → StandsFor finished.found last
        → finished.reached ≡ reached_by last
        → conclusion_in result ≡ concluded p last finished.nodes }
    ensures of_step { (step : Meaning) → IsShapeOf step shape → IsOf step finished.found → IsOutcomeOf step result }
    ensures books { result.books ≡ finished.books }
{
    let Finished {
        found,
        reached,
        nodes,
        books,
    } = finished;
    match found {
        Some(matrix) => Outcome {
            end: End::Design,
            shape: matrix.shape(),
            matrix: Some(matrix),
            nodes,
            reached,
            books,
        },
        None => Outcome {
            end: End::NoDesign,
            shape,
            matrix: None,
            nodes,
            reached,
            books,
        },
    }
}

/// The resolution that was reached where the budget ended: that of the questions before, unless the
/// search left a matrix of its own, which need not be an answer.
fn reached_beside(best: &Option<Matrix>, reached: u8) -> u8
    ensures { (before : Option Found)
        → reached ≡ reached_by before
        → result ≡ reached_beside (best_rows best.now) before }
{
    match best {
        Some(_) => 0,
        None => reached,
    }
}

/// The outcome where the budget ended in a question of this shape, with what was found by then, the
/// resolution that was reached, and the books of the questions before.
fn cut_short(shape: Shape, found: Option<Matrix>, reached: u8, budget: u64, books: Books) -> Outcome
    requires shape { IsShape shape }
    requires whole { IsWhole found }
    ensures concluded { (p : Problem) (left : Option Found)
        → p.dimensions ≡ dimensions_of shape
        → StandsFor found left
        → conclusion_in result ≡ cut_short p left reached budget }
    ensures of_step { (step : Meaning) → IsShapeOf step shape → IsOf step found → IsOutcomeOf step result }
    ensures books { result.books ≡ books }
{
    let shape = match &found {
        Some(matrix) => matrix.shape(),
        None => shape,
    };
    Outcome {
        end: End::Budget,
        shape,
        matrix: found,
        nodes: budget,
        reached,
        books,
    }
}
