ghost use Rattle.std.specs.Prelude.{◌≡◌, ◌≤◌, ◌++◌, Err, IfErr, IfOk, IsTrue, Ok, OnOk, false, length};
ghost use Rattle.fx_designs.specs.Galois.{is_order};
ghost use Rattle.fx_judge.specs.Reading.{plan_of_text};
ghost use Rattle.fx_judge.specs.Steps.{Explains};
ghost use Rattle.fx_program.specs.declared.words.Settings.TheVariants.{Judge};
ghost use Rattle.fx_program.specs.Commands.{command_of};
ghost use Rattle.fx_program.specs.Judging.{judged_output, plan_fault_line};
ghost use Rattle.fx_program.specs.Outside.{
  IsCarriedOut,
  Lists,
  ShelfView,
  outside,
  sink_view,
  source_view,
};

use crate::listing::list;
use crate::stop::{REFUSED, Stop};
use fx_base::{Bytes, NoMemory, Sink, Source, Taken, put, put_number, read_all};
use fx_galois::Field;
use fx_judge::{FaultKind, Plan, PlanFault, PlanStop, judge_listing, read_plan};
use std::alloc::Global;

/// The greatest number of bytes of a plan that was made elsewhere.
const PLAN_LIMIT: usize = 1048576;

/// The fault of a text that is longer than that.
const TOO_LONG: PlanFault = PlanFault {
    kind: FaultKind::TooLong,
    number: 1,
};

/// The command `judge`, at these levels: reads a plan that was made elsewhere, and lists what its runs
/// show.
pub(crate) fn judge_text<S: Source, K: Sink>(
    alloc: Global,
    q: u8,
    source: &mut S,
    listing: &mut K,
) -> Result<u8, Stop>
    requires { IsTrue (is_order q) }
    ensures { (shelf : ShelfView) → shelf.begun ≡ false → IsCarriedOut (command_of (Judge q))
        (outside (source_view S.Source source.old) (sink_view K.Sink listing.old) shelf)
        (outside (source_view S.Source source.new) (sink_view K.Sink listing.new) shelf) result }
{
    let field = Field::of(q).unwrap();
    let text = match read_all(alloc, source, PLAN_LIMIT)? {
        Taken::Whole(text) => text,
        Taken::TooLong => return refuse_plan(alloc, TOO_LONG, listing),
    };
    match take_plan(alloc, text, field) {
        Ok(plan) => list_plan(alloc, &plan, listing),
        Err(PlanStop::Refused(fault)) => refuse_plan(alloc, fault, listing),
        Err(PlanStop::NoMemory) => Err(Stop::NoMemory),
    }
}

/// The plan of a text, which is let go.
fn take_plan(alloc: Global, text: Bytes, field: Field) -> Result<Plan, PlanStop>
    requires { length text ≤ 1048576 }
    ensures plan { IfOk result (λ plan. plan_of_text field text ≡ Ok plan) }
    ensures refused { IfErr result (λ stop. Explains stop (plan_of_text field text)) }
{
    read_plan(alloc, text.as_slice(), field)
}

/// Lists what the runs of a plan show.
fn list_plan<K: Sink>(alloc: Global, plan: &Plan, listing: &mut K) -> Result<u8, Stop>
    ensures { Lists (judged_output (Ok plan.now))
        (sink_view K.Sink listing.old) (sink_view K.Sink listing.new) result }
{
    let mut lines = Bytes::new(alloc);
    judge_listing(alloc, plan, &mut lines)?;
    list(listing, lines.as_slice(), 0)
}

/// Lists where a text is refused as a plan, and why.
fn refuse_plan<K: Sink>(alloc: Global, fault: PlanFault, listing: &mut K) -> Result<u8, Stop>
    ensures refused { IfOk result (λ status. status ≡ 3) }
    ensures output { Lists (judged_output (Err fault))
        (sink_view K.Sink listing.old) (sink_view K.Sink listing.new) result }
{
    let mut line = Bytes::new(alloc);
    put_plan_fault(&mut line, fault)?;
    list(listing, line.as_slice(), REFUSED)
}

/// Appends the line of a fault of a plan.
fn put_plan_fault(out: &mut Bytes, fault: PlanFault) -> Result<(), NoMemory>
    ensures { OnOk result (out.new ≡ out.old ++ plan_fault_line fault) }
{
    put(out, b"factex: J")?;
    put_number(out, u128::from(fault.kind.code()))?;
    put(out, b" record ")?;
    put_number(out, u128::from(fault.number))?;
    put(out, b"\n")
}
