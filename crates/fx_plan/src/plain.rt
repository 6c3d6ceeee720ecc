ghost use Rattle.std.specs.Prelude.{◌≡◌, IfOk, length};
ghost use Rattle.fx_plan.specs.Products.{plain_output, plain_plan};

use crate::assembled::repeats;
use crate::planning::plan_of;
use crate::text::table_text;
use fx_base::{Bytes, NoMemory};
use fx_runs::Runs;
use fx_statements::{Deriveds, Names, OutputSpec, Recodes, Rep, Shuffle};
use std::alloc::Global;

/// The bytes of the plan that an OUTPUT statement without options asks for, of some runs without
/// blocks: a head line with the names of the factors, and a line for each run with the default values.
///
/// # Errors
///
/// `NoMemory`.
pub fn plain_plan(alloc: Global, factors: &Names, runs: &Runs) -> Result<Bytes, NoMemory>
    requires names { length factors.now ≡ runs.now.shape.s }
    requires no_blocks { runs.now.shape.t ≡ 0 }
    ensures { IfOk result (λ bytes. bytes ≡ plain_plan factors.now runs.now) }
{
    let output = plain_output(alloc);
    let (inner, outer) = (repeats(alloc, 1), repeats(alloc, 1));
    let plan = plan_of(alloc, factors, runs, &output, 0, inner, outer)?;
    table_text(alloc, &plan)
}

/// What an OUTPUT statement without options asks for.
fn plain_output(alloc: Global) -> OutputSpec
    ensures { result ≡ plain_output }
{
    OutputSpec {
        name: Bytes::new(alloc),
        pointrep: Rep::Times(1),
        designrep: Rep::Times(1),
        shuffle: Shuffle::Kept,
        recodes: Recodes::new(alloc),
        derived: Deriveds::new(alloc),
        block_name: Bytes::new(alloc),
        block_values: Names::new(alloc),
    }
}
