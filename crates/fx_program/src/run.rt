ghost use Rattle.std.specs.Prelude.{◌≡◌, ◌<◌, ◌≤◌, ◌⊎◌, [], ◌∷◌, ℕ, List, Option, Some, false, Ok, Err, map, ◌++◌, IfOk, IsErr, IsTrue, OnOk, true};
ghost use Rattle.fx_statements.specs.Steps.{meaning_of};
ghost use Rattle.fx_program.specs.CommandLine.{HasOrder, HasShapes, HasThreads, bytes_of, settings_of};
ghost use Rattle.fx_program.specs.Making.{made_text};
ghost use Rattle.fx_program.specs.Texts.{program_in};
ghost use Rattle.fx_program.specs.Claims.{AllClaimsHold, CatalogueHolds, IsPlanned, IsProved, SomeHasNone};
ghost use Rattle.fx_program.specs.declared.words.Settings.TheVariants.{Catalogue, Check, Plan};
ghost use Rattle.fx_program.specs.Stops.{HasStatusCause, exit_status};
ghost use Rattle.fx_program.specs.declared.stop.Stop.TheVariants as stop;
ghost use Rattle.fx_program.specs.Output.{asked_of, large_output, message, program_output, step_output, world};
ghost use Rattle.fx_program.specs.Commands.{command_for, command_in, command_of};
ghost use Rattle.fx_program.specs.Outside.{
  GivesForSome,
  IsCarriedOut,
  Lists,
  Writes,
  outside,
  shelf_view,
  sink_view,
  source_view,
};

use crate::cataloguing::{CatalogueNumbers, list_catalogue};
use crate::checking::check_text;
use crate::giving::{Ended, Origin, give};
use crate::judging::judge_text;
use crate::listing::list;
use crate::making::make_text;
use crate::planning::plan_text;
use crate::plans::AskedPlans;
use crate::refusal::put_fault;
use crate::session::Session;
use crate::status::worse;
use crate::stop::{REFUSED, Stop, exit_status};
use crate::summary::{put_summary, summary_of};
use crate::tabulating::list_table;
use crate::text::{TEXT_LIMIT, TextFault, TextStop, at_front, read_program};
use crate::upgrading::upgrade_text;
use crate::word_fault::WordFault;
use crate::words::{Settings, read_words, word_line};
use fx_answer::answer;
use fx_base::{Bytes, Shelf, Sink, Source, Taken, read_all};
use fx_board::FreeGate;
use fx_language::code;
use fx_statements::Step;
use std::alloc::Global;
use std::thread::Threads;

/// Does all that the program does, for the words of the command line without the program's name,
/// and returns its exit status.
///
/// The shelf must not have a file that is begun and not ended.
///
/// The exit status:
///
/// - 0: each step or line of a catalogue or table has a design, or there is no step; or each design that rules give
///   meets its model; or the book is accepted or upgraded, or the plan judged;
/// - 1: some step or line has none, and no budget ended; or some given design does not meet its model; or the
///   book is rejected;
/// - 2: the budget of some step or line ended;
/// - 3: the words, the text or the plan are refused;
/// - 4: a call on the source, the listing or the shelf failed;
/// - 5: memory ran out.
pub fn factex<R: Threads + Sync, S: Source, K: Sink, F: Shelf>(
    rt: &R,
    alloc: Global,
    words: &[Vec<u8>],
    source: &mut S,
    listing: &mut K,
    shelf: &mut F,
) -> u8
    requires { F.begun shelf.old ≡ false }
    ensures status_range { result ≤ 5 }

    // With a status below 4 the output is exactly the defined one, else a prefix of it: that of the text of
    // the source, where the source exposes it, and of some text where it exposes nothing. That of `tables` is of
    // lines of which each holds of all designs in blocks or split plots: that none has a less key, or that there is
    // none, with a book that is accepted.
    ensures output { GivesForSome (command_in (bytes_of words.now)) (S.left source.old)
        (world (K.written listing.old) (F.files shelf.old))
        (world (K.written listing.new) (F.files shelf.new)) result }
    ensures cause { HasStatusCause
        (S.faults source.old ∷ K.faults listing.old ∷ F.faults shelf.old ∷ [])
        (S.faults source.new ∷ K.faults listing.new ∷ F.faults shelf.new ∷ []) result }
    ensures rooms { (S.sure source.new ≡ S.sure source.old)
        × (K.room listing.new ≡ K.room listing.old)
        × (F.room shelf.new ≡ F.room shelf.old) }
    ensures closed { result < 4 → F.begun shelf.new ≡ false }

    // A command that reads no source leaves it as it was, and so do refused words, which never lead to the
    // status for want of memory.
    ensures unread { (command_in (bytes_of words.now)).reads ≡ false → source.new ≡ source.old }
    ensures refused { IsErr (settings_of (bytes_of words.now))
        → (result ≡ 3) ⊎ (result ≡ 4) }

    // Status 1 comes only where the runs of no rule matrix at all meet what some step of the text that is
    // run asks.
    ensures none_at_all { result ≡ 1 → (text : List ℕ)
        → (command_in (bytes_of words.now)).text_run (S.left source.old) ≡ Some text
        → SomeHasNone (program_in text) }

    // With a status below 3, what is claimed of the outcome of each step of the text that is run holds of all
    // rule matrices: that none at all meets what it asks, or that none is better than its design.
    ensures claims { result < 3 → (text : List ℕ)
        → (command_in (bytes_of words.now)).text_run (S.left source.old) ≡ Some text
        → AllClaimsHold (program_in text) }

    // With `check`, status 0 comes only of a book whose claim holds: of all rule matrices, or, where it is that of a
    // table, of all designs in blocks or split plots.
    ensures accepted { result ≡ 0 → settings_of (bytes_of words.now) ≡ Ok Check
        → (text : List ℕ)
        → S.left source.old ≡ Some text
        → IsProved text }

    // With `catalogue` and a status below 3, what each line claims holds of all rule matrices, and with status 1
    // none with as many factors as the last line, or more, has resolution 3.
    ensures catalogued { result < 3 → (q m most threads nodes : ℕ)
        → settings_of (bytes_of words.now) ≡ Ok (Catalogue q m most threads nodes)
        → CatalogueHolds q m most nodes result }

    // With `plan` and a status below 3, each step has the design of its rules, and the status tells whether each
    // meets its model.
    ensures planned { result < 3 → (seed : ℕ)
        → settings_of (bytes_of words.now) ≡ Ok (Plan seed)
        → (text : List ℕ)
        → S.left source.old ≡ Some text
        → IsPlanned text result }

    // Where the source is read, the statuses of steps and of books come only with it read to its end,
    // but where it has more bytes than a book may have.
    ensures read_to_end { result < 3 → (text : List ℕ)
        → (command_in (bytes_of words.now)).reads_all_of text ≡ true
        → S.left source.old ≡ Some text
        → S.left source.new ≡ Some [] }
{
    exit_status(carry_out(rt, alloc, read_words(words), source, listing, shelf))
}

/// Carries out the command of these settings, or lists why the words are refused.
fn carry_out<R: Threads + Sync, S: Source, K: Sink, F: Shelf>(
    rt: &R,
    alloc: Global,
    asked: Result<Settings, WordFault>,
    source: &mut S,
    listing: &mut K,
    shelf: &mut F,
) -> Result<u8, Stop>
    requires threads { IfOk asked HasThreads }
    requires order { IfOk asked HasOrder }
    requires shapes { IfOk asked HasShapes }
    requires shelf { F.begun shelf.old ≡ false }
    ensures done { IsCarriedOut (command_for asked)
        (outside (source_view S.Source source.old) (sink_view K.Sink listing.old) (shelf_view F.Shelf shelf.old))
        (outside (source_view S.Source source.new) (sink_view K.Sink listing.new) (shelf_view F.Shelf shelf.new))
        result }
    ensures unread { (command_for asked).reads ≡ false → source.new ≡ source.old }
    ensures refused { IsErr asked → (result ≡ Ok 3) ⊎ (result ≡ Err stop.Failed) }
{
    match asked {
        Ok(settings) => match settings {
            Settings::Run { threads, seed } => {
                let session = Session {
                    rt,
                    alloc,
                    threads,
                    seed,
                };
                run(&session, source, listing, shelf)
            }
            Settings::Plan { seed } => {
                let session = Session {
                    rt,
                    alloc,
                    threads: 1,
                    seed,
                };
                plan_text(&session, source, listing, shelf)
            }
            Settings::Check => check_text(alloc, source, listing),
            Settings::Upgrade => upgrade_text(alloc, source, listing),
            Settings::Judge { q } => judge_text(alloc, q, source, listing),
            Settings::Make { n } => make(alloc, n, listing),
            Settings::Large { n, threads } => {
                let session = Session {
                    rt,
                    alloc,
                    threads,
                    seed: 0,
                };
                large(&session, n, listing)
            }
            Settings::Catalogue {
                q,
                m,
                upto,
                threads,
                nodes,
            } => {
                let session = Session {
                    rt,
                    alloc,
                    threads,
                    seed: 0,
                };
                let asked = CatalogueNumbers { q, m, upto, nodes };
                list_catalogue(&session, asked, listing, shelf)
            }
            Settings::Tables { asked } => list_table(rt, alloc, asked, listing, shelf),
        },
        Err(fault) => list(listing, word_line(fault).as_slice(), REFUSED),
    }
}

/// The command `run`.
fn run<R: Threads + Sync, S: Source, K: Sink, F: Shelf>(
    session: &Session<'_, R>,
    source: &mut S,
    listing: &mut K,
    shelf: &mut F,
) -> Result<u8, Stop>
    requires { F.begun shelf.old ≡ false }
    ensures { IsCarriedOut (command_of (Settings.Run session.now.threads session.now.seed))
        (outside (source_view S.Source source.old) (sink_view K.Sink listing.old) (shelf_view F.Shelf shelf.old))
        (outside (source_view S.Source source.new) (sink_view K.Sink listing.new) (shelf_view F.Shelf shelf.new))
        result }
{
    let text = match read_all(session.alloc, source, TEXT_LIMIT)? {
        Taken::Whole(text) => text,
        Taken::TooLong => return refuse(session.alloc, at_front(code::TEXT_TOO_LONG), listing),
    };
    match read_program(session.alloc, text.as_slice()) {
        Ok(program) => run_steps(session, program.as_slice(), listing, shelf),
        Err(TextStop::Fault(fault)) => refuse(session.alloc, fault, listing),
        Err(TextStop::NoMemory) => Err(Stop::NoMemory),
    }
}

/// Runs the steps of a program in order. The greatest of their statuses is the program's.
fn run_steps<R: Threads + Sync, K: Sink, F: Shelf>(
    session: &Session<'_, R>,
    steps: &[Step],
    listing: &mut K,
    shelf: &mut F,
) -> Result<u8, Stop>
    requires { F.begun shelf.old ≡ false }
    ensures { Writes (program_output session.now.seed (Ok (map meaning_of steps.now)))
        (sink_view K.Sink listing.old) (sink_view K.Sink listing.new)
        (shelf_view F.Shelf shelf.old) (shelf_view F.Shelf shelf.new) result }
{
    let mut status = 0;
    let mut plans = AskedPlans::new(session.alloc);
    for (i, step) in steps.iter().enumerate() {
        let ended = run_step(session, i + 1, step, &mut plans, listing, shelf)?;
        status = worse(status, ended);
    }
    Ok(status)
}

/// Runs the step of this number: shelves its books, its plans and its fold-over, and then lists its
/// outcome. Its OUTPUT statements are added to the earlier ones.
fn run_step<'a, R: Threads + Sync, K: Sink, F: Shelf>(
    session: &Session<'_, R>,
    number: usize,
    step: &'a Step,
    plans: &mut AskedPlans<'a>,
    listing: &mut K,
    shelf: &mut F,
) -> Result<u8, Stop>
    requires { F.begun shelf.old ≡ false }
    ensures output { Writes (step_output session.now.seed number plans.old (meaning_of step.now))
        (sink_view K.Sink listing.old) (sink_view K.Sink listing.new)
        (shelf_view F.Shelf shelf.old) (shelf_view F.Shelf shelf.new) result }
    ensures plans { OnOk result (plans.new ≡ plans.old ++ asked_of (meaning_of step.now)) }
{
    let outcome = answer(session.rt, session.alloc, step, session.threads, &FreeGate)?;
    let ended = Ended {
        number,
        step,
        outcome,
        origin: Origin::Search,
    };
    give(session, &ended, plans, listing, shelf)
}

/// The command `make`, for a text of so many steps.
fn make<K: Sink>(alloc: Global, n: u8, listing: &mut K) -> Result<u8, Stop>
    ensures { Lists (message (made_text n) 0)
        (sink_view K.Sink listing.old) (sink_view K.Sink listing.new) result }
{
    let mut text = Bytes::new(alloc);
    make_text(n, &mut text)?;
    list(listing, text.as_slice(), 0)
}

/// The command `large`, for a text of so many steps: answers them in order, and lists their summary.
fn large<R: Threads + Sync, K: Sink>(
    session: &Session<'_, R>,
    n: u8,
    listing: &mut K,
) -> Result<u8, Stop>
    ensures { Lists (large_output (program_in (made_text n)))
        (sink_view K.Sink listing.old) (sink_view K.Sink listing.new) result }
{
    let mut text = Bytes::new(session.alloc);
    make_text(n, &mut text)?;
    match read_program(session.alloc, text.as_slice()) {
        Ok(program) => sum_up(session, program.as_slice(), listing),
        Err(TextStop::Fault(fault)) => refuse(session.alloc, fault, listing),
        Err(TextStop::NoMemory) => Err(Stop::NoMemory),
    }
}

/// Lists the summary of the steps of a program.
fn sum_up<R: Threads + Sync, K: Sink>(
    session: &Session<'_, R>,
    steps: &[Step],
    listing: &mut K,
) -> Result<u8, Stop>
    ensures { Lists (large_output (Ok (map meaning_of steps.now)))
        (sink_view K.Sink listing.old) (sink_view K.Sink listing.new) result }
{
    let summary = summary_of(session, steps)?;
    let mut lines = Bytes::new(session.alloc);
    put_summary(&mut lines, steps.len(), &summary)?;
    list(listing, lines.as_slice(), summary.status)
}

/// Lists where the text is refused, and why.
fn refuse<K: Sink>(alloc: Global, fault: TextFault, listing: &mut K) -> Result<u8, Stop>
    ensures refused { IfOk result (λ status. status ≡ 3) }
    ensures output { (seed : ℕ) → Lists (program_output seed (Err fault))
        (sink_view K.Sink listing.old) (sink_view K.Sink listing.new) result }
{
    let mut line = Bytes::new(alloc);
    put_fault(&mut line, fault)?;
    list(listing, line.as_slice(), REFUSED)
}
