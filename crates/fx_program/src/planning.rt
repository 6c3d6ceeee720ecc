ghost use Rattle.std.specs.Prelude.{◌≡◌, ◌==◌, ◌≤◌, ◌∷◌, ◌++◌, if◌then◌else◌, OnOk, All, Err, Ok, IfErr, IfOk, IfSome, Some, [], ℕ, false, length, map, slice_index, ◌&&◌};
ghost use Rattle.std.specs.List.{list_any};
ghost use Rattle.fx_language.specs.declared.symbol.Symbol.TheVariants.{Proc, Semicolon};
ghost use Rattle.fx_language.specs.Symbols.{is};
ghost use Rattle.fx_rules.specs.Laws.{IsOfRules};
ghost use Rattle.fx_rules.specs.Parts.{IsWithin};
ghost use Rattle.fx_statements.specs.Steps.{meaning_of};
ghost use Rattle.fx_vectors.specs.Question.{IsValid, requirement_of};
ghost use Rattle.fx_vectors.specs.Shape.{dimensions_of};
ghost use Rattle.fx_program.specs.Commands.{command_of};
ghost use Rattle.fx_program.specs.Ended.{IsEnded};
ghost use Rattle.fx_program.specs.Outside.{IsCarriedOut, Lists, Writes, outside, shelf_view, sink_view, source_view};
ghost use Rattle.fx_program.specs.Planning.{Explains, idle_part, is_searched, met_by, met_under, part_before, place_of};
ghost use Rattle.fx_program.specs.Planning.{planned_in, planned_output, ruled_in, ruled_steps, step_starts};
ghost use Rattle.fx_program.specs.declared.words.Settings.TheVariants.{Plan};
ghost use Rattle.fx_program.specs.declared.giving.Origin.TheVariants.{Rules};

use crate::giving::{Ended, Origin, give};
use crate::listing::list;
use crate::plan_fault::{PlanFault, PlanStop};
use crate::plans::AskedPlans;
use crate::refusal::put_plan_fault;
use crate::session::Session;
use crate::status::worse;
use crate::stop::{REFUSED, Stop};
use crate::text::{TEXT_LIMIT, TextStop, at_front, read_program};
use fx_answer::question_for;
use fx_base::{Bytes, Items, NoMemory, Shelf, Sink, Source, Taken, Values, read_all};
use fx_language::{Symbol, code, symbols};
use fx_lexer::{LexStop, lex};
use fx_rules::{Part, are_met, blanked, parts_of, place_after, read_rules};
use fx_statements::{Criterion, End, Outcome, Size, Step};
use fx_text::Place;
use fx_vectors::{Books, Matrix, Question};
use std::alloc::Global;
use std::marker::Model;
use std::thread::Threads;

/// The number of the one question of a step that leaves nothing but the resolution to a search.
const ONLY: u8 = 3;

/// A step with the design that its rules give. Clauses see the meaning of the step, and the matrix.
#[derive(Drop)]
pub(crate) struct Ruled<'a> {
    step: &'a Step,
    matrix: Matrix,
    /// Whether its runs meet the model of the step, where that has one.
    is_met: Option<bool>,
}

impl<'a> Model for Ruled<'a> {
    ghost use Rattle.fx_program.specs.Planning.{IsRuled, RuledView};
    ghost use Rattle.fx_statements.specs.Steps.{meaning_of};

    ghost Value = { RuledView };

    ghost view = { λ x. record { step = meaning_of x.step.now; matrix = x.matrix } };

    ghost invariant = { λ x. IsRuled x.step.now x.matrix x.is_met };
}

/// The command `plan`: gives the designs of the rules that stand before the steps of a text.
pub(crate) fn plan_text<R: Threads + Sync, S: Source, K: Sink, F: Shelf>(
    session: &Session<'_, R>,
    source: &mut S,
    listing: &mut K,
    shelf: &mut F,
) -> Result<u8, Stop>
    requires { F.begun shelf.old ≡ false }
    ensures { IsCarriedOut (command_of (Plan session.now.seed))
        (outside (source_view S.Source source.old) (sink_view K.Sink listing.old) (shelf_view F.Shelf shelf.old))
        (outside (source_view S.Source source.new) (sink_view K.Sink listing.new) (shelf_view F.Shelf shelf.new))
        result }
{
    match read_all(session.alloc, source, TEXT_LIMIT)? {
        Taken::Whole(text) => plan_steps(session, text.as_slice(), listing, shelf),
        Taken::TooLong => refuse(
            session.alloc,
            PlanFault::Program(at_front(code::TEXT_TOO_LONG)),
            listing,
        ),
    }
}

/// The same for a text that is read.
fn plan_steps<R: Threads + Sync, K: Sink, F: Shelf>(
    session: &Session<'_, R>,
    text: &[u8],
    listing: &mut K,
    shelf: &mut F,
) -> Result<u8, Stop>
    requires short { length text.now ≤ 1048576 }
    requires begun { F.begun shelf.old ≡ false }
    ensures { Writes (planned_output session.now.seed (planned_in text.now))
        (sink_view K.Sink listing.old) (sink_view K.Sink listing.new)
        (shelf_view F.Shelf shelf.old) (shelf_view F.Shelf shelf.new) result }
{
    let parts = parts_of(session.alloc, text)?;
    let program_text = blanked(session.alloc, text, parts.as_slice())?;
    let program = match read_program(session.alloc, program_text.as_slice()) {
        Ok(program) => program,
        Err(TextStop::Fault(fault)) => return refuse(
            session.alloc,
            PlanFault::Program(fault),
            listing,
        ),
        Err(TextStop::NoMemory) => return Err(Stop::NoMemory),
    };
    let starts = step_starts(session.alloc, program_text.as_slice())?;
    match all_ruled(
        session.alloc,
        text,
        parts.as_slice(),
        starts.as_slice(),
        program.as_slice(),
    ) {
        Ok(steps) => give_all(session, steps.as_slice(), listing, shelf),
        Err(PlanStop::Fault(fault)) => refuse(session.alloc, fault, listing),
        Err(PlanStop::NoMemory) => Err(Stop::NoMemory),
    }
}

/// Where the steps of a text begin: the index of each PROC that begins a statement.
fn step_starts(alloc: Global, text: &[u8]) -> Result<Values<usize>, NoMemory>
    requires { length text.now ≤ 1048576 }
    ensures { IfOk result (λ starts. starts ≡ step_starts text.now) }
{
    let mut starts = Values::new(alloc);
    let tokens = match lex(alloc, text) {
        Ok(tokens) => tokens,
        Err(LexStop::Fault(_)) => return Ok(starts),
        Err(LexStop::NoMemory) => return Err(NoMemory),
    };
    let symbols = symbols(alloc, text, &tokens)?;
    let mut fresh = true;
    for i in 0..tokens.len() {
        let symbol = symbols.get(i);
        push_where(&mut starts, tokens.get(i).from, begins_step(fresh, symbol))?;
        fresh = ends_statement(symbol);
    }
    Ok(starts)
}

/// Whether a symbol begins a step; `fresh`: a statement begins there.
fn begins_step(fresh: bool, symbol: Symbol) -> bool
    ensures { result ≡ (fresh && is Proc symbol) }
{
    fresh && symbol == Symbol::Proc
}

fn ends_statement(symbol: Symbol) -> bool
    ensures { result ≡ is Semicolon symbol }
{
    symbol == Symbol::Semicolon
}

/// Adds a place, where it is one.
fn push_where(starts: &mut Values<usize>, start: usize, is_start: bool) -> Result<(), NoMemory>
    ensures { OnOk result (starts.new ≡ starts.old ++ (if is_start then start ∷ [] else [])) }
{
    if !is_start {
        return Ok(());
    }
    starts.push(start)
}

/// Each step with the design that the rules of its part give.
///
/// # Errors
///
/// The first fault: step by step, and then that of a part without a step.
fn all_ruled<'a>(
    alloc: Global,
    text: &[u8],
    parts: &[Part],
    starts: &[usize],
    steps: &'a [Step],
) -> Result<Items<Ruled<'a>>, PlanStop>
    requires short { length text.now ≤ 1048576 }
    requires within { All (IsWithin (length text.now)) parts.now }
    ensures ok { IfOk result (λ all.
        ruled_steps text.now parts.now starts.now (map meaning_of steps.now) ≡ Ok all) }
    ensures refused { IfErr result
        (Explains (ruled_steps text.now parts.now starts.now (map meaning_of steps.now))) }
{
    let mut all = Items::new(alloc);
    for (i, step) in steps.iter().enumerate() {
        let start = start_at(starts, i);
        all.push(ruled_step(alloc, text, part_before(parts, start), start, step)?)?;
    }
    match idle_part(parts, starts) {
        Some(part) => Err(PlanStop::Fault(PlanFault::Apart(place_of(text, part.at)))),
        None => Ok(all),
    }
}

/// The place of this number, counted from 0, or 0 where there is none.
fn start_at(starts: &[usize], i: usize) -> usize
    ensures { result ≡ slice_index starts.now i }
{
    match starts.get(i) {
        Some(start) => *start,
        None => 0,
    }
}

/// The part that stands before the step that begins at this index.
fn part_before(parts: &[Part], start: usize) -> Option<Part>
    ensures { result ≡ part_before parts.now start }
{
    for part in parts {
        if part.step == start {
            return Some(*part);
        }
    }
    None
}

/// The first part that stands before no step.
fn idle_part(parts: &[Part], starts: &[usize]) -> Option<Part>
    ensures { result ≡ idle_part parts.now starts.now }
{
    for part in parts {
        if !is_among(part.step, starts) {
            return Some(*part);
        }
    }
    None
}

/// Whether a step begins at this place.
fn is_among(place: usize, starts: &[usize]) -> bool
    ensures { result ≡ list_any (λ start. start == place) starts.now }
{
    starts.iter().any(|start| *start == place)
}

/// The step that begins at this index, with the design that the rules of its part give.
fn ruled_step<'a>(
    alloc: Global,
    text: &[u8],
    part: Option<Part>,
    start: usize,
    step: &'a Step,
) -> Result<Ruled<'a>, PlanStop>
    requires short { length text.now ≤ 1048576 }
    requires within { IfSome part (IsWithin (length text.now)) }
    ensures ok { IfOk result (λ one. ruled_in text.now start (meaning_of step.now) part ≡ Ok one) }
    ensures refused { IfErr result (Explains (ruled_in text.now start (meaning_of step.now) part)) }
{
    let Some(part) = part else {
        return Err(PlanStop::Fault(PlanFault::Apart(place_of(text, start))));
    };
    if is_searched(step) {
        return Err(PlanStop::Fault(PlanFault::Searching(place_of(text, part.at))));
    }
    let question = question_for(alloc, step, ONLY)?;
    match read_rules(question.shape, &step.factors, &text[part.at..part.end]) {
        Ok(matrix) => {
            let is_met = met_under(alloc, step.settings.criterion, &question, &matrix)?;
            Ok(Ruled {
                step,
                matrix,
                is_met,
            })
        }
        Err(fault) => {
            let place = place_of(text, part.at + fault.at);
            Err(PlanStop::Fault(PlanFault::Rules(fault.problem, place)))
        }
    }
}

/// Whether a step leaves its runs, its blocks or a least pattern to a search.
fn is_searched(step: &Step) -> bool
    ensures { result ≡ is_searched (meaning_of step.now).settings }
{
    let is_minimum = match step.settings.size {
        Size::Minimum => true,
        Size::Runs { .. } => false,
    };
    step.settings.least || step.settings.blocks.are_most() || is_minimum
}

/// Whether the runs of a given design meet what is demanded of them; under the highest resolution there is nothing
/// to meet.
fn met_under(
    alloc: Global,
    criterion: Criterion,
    question: &Question,
    matrix: &Matrix,
) -> Result<Option<bool>, NoMemory>
    requires valid { IsValid question.now }
    requires given { IsOfRules question.now.shape matrix.now }
    ensures { IfOk result (λ met.
        met
        ≡ met_under criterion (dimensions_of question.now.shape)
        (requirement_of question.now.demands) matrix.now.rows) }
{
    if criterion.is_highest() {
        return Ok(None);
    }
    let is_met = are_met(alloc, question, matrix)?;
    Ok(Some(is_met))
}

/// The place of the byte with this index.
fn place_of(text: &[u8], at: usize) -> Place
    requires { length text.now ≤ 1048576 }
    ensures { result ≡ place_of text.now at }
{
    place_after(&text[..at.min(text.len())])
}

/// Gives the steps in order. The greatest of their statuses is the text's.
fn give_all<R: Threads + Sync, K: Sink, F: Shelf>(
    session: &Session<'_, R>,
    steps: &[Ruled<'_>],
    listing: &mut K,
    shelf: &mut F,
) -> Result<u8, Stop>
    requires { F.begun shelf.old ≡ false }
    ensures { Writes (planned_output session.now.seed (Ok steps.now))
        (sink_view K.Sink listing.old) (sink_view K.Sink listing.new)
        (shelf_view F.Shelf shelf.old) (shelf_view F.Shelf shelf.new) result }
{
    let mut status = 0;
    let mut plans = AskedPlans::new(session.alloc);
    for (i, ruled) in steps.iter().enumerate() {
        let ended = give(
            session,
            &ended_by(session.alloc, i + 1, ruled),
            &mut plans,
            listing,
            shelf,
        )?;
        status = worse(status, ended);
    }
    Ok(status)
}

/// The step of this number as one that has ended with the design that its rules give.
fn ended_by<'a>(alloc: Global, number: usize, ruled: &Ruled<'a>) -> Ended<'a>
    ensures number { result.number ≡ number }
    ensures step { meaning_of result.step.now ≡ ruled.now.step }
    ensures matrix { result.outcome.matrix ≡ Some ruled.now.matrix }
    ensures books { result.outcome.books ≡ [] }
    ensures origin { result.origin ≡ Rules (met_by ruled.now) }
    ensures ended { IsEnded result.step.now result.outcome }
{
    let outcome = Outcome {
        end: End::Design,
        shape: ruled.matrix.shape(),
        matrix: Some(ruled.matrix.copy()),
        nodes: 0,
        reached: 0,
        books: Books::new(alloc),
    };
    Ended {
        number,
        step: ruled.step,
        outcome,
        origin: Origin::Rules(ruled.is_met),
    }
}

/// Lists where the text is refused, and why.
fn refuse<K: Sink>(alloc: Global, fault: PlanFault, listing: &mut K) -> Result<u8, Stop>
    ensures refused { IfOk result (λ status. status ≡ 3) }
    ensures output { (seed : ℕ) → Lists (planned_output seed (Err fault))
        (sink_view K.Sink listing.old) (sink_view K.Sink listing.new) result }
{
    let mut line = Bytes::new(alloc);
    put_plan_fault(&mut line, fault)?;
    list(listing, line.as_slice(), REFUSED)
}
