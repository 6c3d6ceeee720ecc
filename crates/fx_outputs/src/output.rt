ghost use Rattle.std.specs.Prelude.{◌≡◌, ◌*◌, ◌≤◌, ◌&&◌, nat_lt, length, IfOk, IfErr, OnOk, All};
ghost use Rattle.fx_language.specs.declared.symbol.Symbol.TheVariants.{Output};
ghost use Rattle.fx_text.specs.Written.{begins};
ghost use Rattle.fx_text.specs.Refusals.{IsRefused};
ghost use Rattle.fx_outputs.specs.Earlier.{plan_names, rep_rows};
ghost use Rattle.fx_outputs.specs.Histories.{built};
ghost use Rattle.fx_outputs.specs.Outputs.{check_new_name, output_spec, outputs_of, plan_behind};
ghost use Rattle.fx_outputs.specs.Validity.{IsWithinLimits};

use crate::block::{block_name, block_values, check_blockname, check_column};
use crate::columns::read_columns;
use crate::context::OutputContext;
use crate::derived::Deriveds;
use crate::earlier::{EarlierPlan, EarlierPlans};
use crate::option::{option_of, options_of};
use crate::own_columns::own_columns;
use crate::plan_columns::check_columns;
use crate::recode::Recodes;
use crate::replication::{Rep, check_rows, reps, row_count};
use crate::shuffle::{Shuffle, shuffle_asked};
use fx_base::{Bytes, Items, NoMemory};
use fx_language::{Symbol, code};
use fx_text::{Lexeme, Names, ParseStop, Phrase, Statement};
use std::alloc::Global;

/// A file that a step writes.
pub struct OutputSpec {
    /// The OUT name, as it is written.
    pub name: Bytes,
    /// How often each run is repeated in a row.
    pub pointrep: Rep,
    /// How often the whole design is repeated.
    pub designrep: Rep,
    /// What of the plan is shuffled, and from which seed.
    pub shuffle: Shuffle,
    /// The factors that have values of their own, in the order of the text.
    pub recodes: Recodes,
    /// The derived factors, in the order of the text.
    pub derived: Deriveds,
    /// The name of the block column, empty where the text has none.
    pub block_name: Bytes,
    /// The values of the block column, empty where the text has none.
    pub block_values: Names,
}

// Not derived, so that a place that drops one is proved with one call.
impl Drop for OutputSpec {
    fn drop(self) {
        let OutputSpec {
            name: _,
            pointrep: _,
            designrep: _,
            shuffle: _,
            recodes: _,
            derived: _,
            block_name: _,
            block_values: _,
        } = self;
    }
}

/// The files that a step writes, in order.
pub type Outputs = Items<OutputSpec>;

/// The OUTPUT statements among the statements of a step, in order. `earlier` are the plans that precede
/// it in the program; those of this step are added. After an error some of them may be.
///
/// # Errors
///
/// The first refusal, statement by statement, each by E18, E20 for POINTREP and DESIGNREP, E33 for
/// both, E21, E19, E31, E5, E17 for BLOCKNAME; its recoded factors and brackets from left to right, a
/// recoded factor by E4, E28, E17, brackets by E35, E4 and E28 for each name, and E17; and E34 for the
/// names of derived factors, for POINTREP's plan, and for DESIGNREP's. And `NoMemory`.
pub fn outputs(
    alloc: Global,
    context: &OutputContext<'_>,
    earlier: &mut EarlierPlans,
    statements: &[Statement<'_>],
) -> Result<Outputs, ParseStop>
    ensures ok { IfOk result (λ outputs.
        outputs_of context.now earlier.old statements.now ≡ Ok outputs) }
    ensures plans { IfOk result (λ outputs.
        earlier.new ≡ built (plan_behind context.now) earlier.old outputs) }
    ensures within_limits { IfOk result (All (IsWithinLimits context.now)) }
    ensures refused { IfErr result (IsRefused (outputs_of context.now earlier.old statements.now)) }
{
    let mut outputs = Outputs::new(alloc);
    for statement in statements {
        if is_output(statement) {
            let lexemes = statement.lexemes();
            let word = &lexemes[0];
            let name = &lexemes[3];
            let options = options_of(alloc, &statement.from(3))?;
            let output = output(alloc, context, earlier, word, name, options.as_slice())?;
            let plan = plan_behind(alloc, context, earlier, &output)?;
            earlier.push(alloc, plan)?;
            outputs.push(output)?;
        }
    }
    Ok(outputs)
}

/// Whether it begins `OUTPUT OUT = name`.
fn is_output(statement: &Statement<'_>) -> bool
    ensures { result ≡ (begins Output statement.now && nat_lt 3 (length statement.now)) }
{
    statement.begins(Symbol::Output) && statement.lexemes().len() > 3
}

/// An OUTPUT statement after these plans: `word` is the word OUTPUT, `name` the OUT name.
fn output(
    alloc: Global,
    context: &OutputContext<'_>,
    earlier: &EarlierPlans,
    word: &Lexeme<'_>,
    name: &Lexeme<'_>,
    options: &[Phrase<'_>],
) -> Result<OutputSpec, ParseStop>
    ensures ok { IfOk result (λ output.
        output_spec context.now earlier.now word.now name.now options.now ≡ Ok output) }
    ensures refused { IfErr result
        (IsRefused (output_spec context.now earlier.now word.now name.now options.now)) }
{
    let blockname = option_of(Symbol::Blockname, options);
    check_new_name(alloc, earlier, name)?;
    let reps = reps(alloc, earlier, options)?;
    let each = earlier.rep_rows(reps.0);
    let all = earlier.rep_rows(reps.1);
    check_rows(context.runs, each, all, name)?;
    let shuffle = shuffle_asked(options)?;
    check_blockname(context.blocks, &blockname)?;
    check_column(context, word, &blockname)?;
    let block_values = block_values(alloc, context.blocks, &blockname)?;
    let columns = read_columns(alloc, context, options)?;
    let block_name = block_name(alloc, &blockname)?;
    let derived = columns.derived.as_slice();
    check_columns(
        alloc,
        context,
        earlier,
        reps,
        block_name.as_slice(),
        derived,
        options,
    )?;
    let (recodes, derived) = columns.into_parts();
    Ok(OutputSpec {
        name: Bytes::from_slice(alloc, name.text())?,
        pointrep: reps.0,
        designrep: reps.1,
        shuffle,
        recodes,
        derived,
        block_name,
        block_values,
    })
}

/// Tests that no earlier plan has the OUT name.
///
/// # Errors
///
/// E18 at the name: one of them has it. And `NoMemory`.
fn check_new_name(alloc: Global, earlier: &EarlierPlans, name: &Lexeme<'_>) -> Result<(), ParseStop>
    ensures ok { OnOk result (check_new_name (plan_names earlier.now) name.now ≡ Ok tt) }
    ensures refused { IfErr result (IsRefused (check_new_name (plan_names earlier.now) name.now)) }
{
    if earlier.find(alloc, name.text())?.is_none() {
        return Ok(());
    }
    Err(ParseStop::Refused(name.refused(code::REPEATED_OUT_NAME)))
}

/// What later statements need of an output after these plans.
fn plan_behind(
    alloc: Global,
    context: &OutputContext<'_>,
    earlier: &EarlierPlans,
    output: &OutputSpec,
) -> Result<EarlierPlan, NoMemory>
    requires { context.now.runs * rep_rows earlier.now output.now.pointrep
        * rep_rows earlier.now output.now.designrep ≤ 200000 }
    ensures { IfOk result (λ plan. plan ≡ plan_behind context.now earlier.now output.now) }
{
    let each = earlier.rep_rows(output.pointrep);
    let all = earlier.rep_rows(output.designrep);
    let rows = row_count(context.runs, each, all) as u32;
    let derived = output.derived.as_slice();
    Ok(EarlierPlan {
        name: Bytes::from_slice(alloc, output.name.as_slice())?,
        rows,
        own: own_columns(alloc, context, output.block_name.as_slice(), derived)?,
        pointrep: output.pointrep,
        designrep: output.designrep,
    })
}
