ghost use Rattle.std.specs.Prelude.{◌≡◌, ◌≤◌, ◌∷◌, [], drop, length, true, false};
ghost use Rattle.fx_base.specs.Acts.{WholeFile};
ghost use Rattle.fx_plan.specs.Tables.{text_of, text_of_table};
ghost use Rattle.fx_program.specs.Outside.{Fills, ShelvesFiles, shelf_view};

use crate::stop::Stop;
use fx_base::{Shelf, put};
use fx_plan::{Plan, head_text, rows_text};
use std::alloc::Global;

/// Shelves a plan part after part, so that its text is never held whole.
pub(crate) fn stream_plan<F: Shelf>(
    alloc: Global,
    name: &[u8],
    plan: &Plan,
    shelf: &mut F,
) -> Result<(), Stop>
    requires name { (1 ≤ length name.now) × (length name.now ≤ 64) }
    requires ended { F.begun shelf.old ≡ false }
    ensures { ShelvesFiles (WholeFile name.now (text_of_table plan.now) ∷ [])
        (shelf_view F.Shelf shelf.old) (shelf_view F.Shelf shelf.new) result }
{
    shelf.begin(name)?;
    fill_plan(alloc, plan, shelf)?;
    shelf.end()?;
    Ok(())
}

/// Appends the text of a plan to the file that is begun: the head line together with the first rows, so that
/// a small plan goes in one call.
fn fill_plan<F: Shelf>(alloc: Global, plan: &Plan, shelf: &mut F) -> Result<(), Stop>
    requires { F.begun shelf.old ≡ true }
    ensures { Fills (text_of_table plan.now)
        (shelf_view F.Shelf shelf.old) (shelf_view F.Shelf shelf.new) result }
{
    let part = plan.rows_at_once();
    let first = plan.len().min(part);
    let mut text = head_text(alloc, plan)?;
    let rows = rows_text(alloc, plan, 0, first)?;
    put(&mut text, rows.as_slice())?;
    fill(shelf, text.as_slice())?;
    fill_rows(alloc, plan, first, part, shelf)
}

/// Appends the lines of the rows of a plan from `from` on, counted from 0, to the file that is begun,
/// `part` rows at a time.
fn fill_rows<F: Shelf>(
    alloc: Global,
    plan: &Plan,
    from: usize,
    part: usize,
    shelf: &mut F,
) -> Result<(), Stop>
    requires part { 1 ≤ part }
    requires begun { F.begun shelf.old ≡ true }
    requires within { from ≤ length plan.now.rows }
    ensures { Fills (text_of (drop from plan.now.rows))
        (shelf_view F.Shelf shelf.old) (shelf_view F.Shelf shelf.new) result }
{
    let mut at = from;
    while at < plan.len() {
        let next = at + (plan.len() - at).min(part);
        let text = rows_text(alloc, plan, at, next)?;
        fill(shelf, text.as_slice())?;
        at = next;
    }
    Ok(())
}

/// Appends these bytes to the file that is begun.
fn fill<F: Shelf>(shelf: &mut F, content: &[u8]) -> Result<(), Stop>
    requires { F.begun shelf.old ≡ true }
    ensures { Fills content.now
        (shelf_view F.Shelf shelf.old) (shelf_view F.Shelf shelf.new) result }
{
    let mut from = 0;
    while from < content.len() {
        from += shelf.write(&content[from..])?;
    }
    Ok(())
}
