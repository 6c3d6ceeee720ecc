ghost use Rattle.std.specs.Prelude.{◌≡◌, ◌<◌, ◌*◌, ◌^◌, All, IfOk, length, map};
ghost use Rattle.fx_plan.specs.Draws.{generator};
ghost use Rattle.fx_plan.specs.Plans.{arrangement, shuffled_by, shuffled_values};
ghost use Rattle.fx_plan.specs.Columns.{column_values};
ghost use Rattle.fx_plan.specs.Products.{AreValues, CanBePlanned, IsArrangement, picked, planned, plan_of, replicated, run_of};
ghost use Rattle.fx_runs.specs.RunBlocks.{block_of};

use crate::assembled::Plan;
use crate::coded::CodedTable;
use crate::columns::{column_values, free_places};
use crate::draws::shuffle_each;
use crate::order::{in_order, shuffled_in_blocks};
use crate::runs::runs_table;
use fx_base::{Bytes, NoMemory};
use fx_runs::Runs;
use fx_statements::{Names, OutputSpec, Shuffle};
use rand_core::SeedableRng;
use rand_pcg::Pcg64;
use std::alloc::Global;

/// What a plan is made of: runs, what is asked of their columns and order, and the rows that they are
/// repeated by.
#[derive(Drop)]
pub(crate) struct Layout<'a> {
    pub(crate) alloc: Global,
    /// The names of the factors.
    pub(crate) factors: &'a Names,
    pub(crate) runs: &'a Runs,
    pub(crate) output: &'a OutputSpec,
    /// The rows that each run is repeated by.
    pub(crate) inner: &'a Plan,
    /// The rows that the whole list of them is repeated by.
    pub(crate) outer: &'a Plan,
    ghost planned: { CanBePlanned factors.now runs.now output.now },
}

/// A plan before its rows are put together: the runs as a table, and the order of the rows in which they are
/// repeated.
#[derive(Drop)]
pub(crate) struct Arranged {
    pub(crate) runs: CodedTable,
    pub(crate) order: Vec<u32>,
}

impl<'a> Layout<'a> {
    /// The parts of the plan, by the program's seed.
    pub(crate) fn arranged(&self, seed: u64) -> Result<Arranged, NoMemory>
        ensures plan { IfOk result (λ a. picked a.order.items
            (replicated a.runs self.now.inner.now self.now.outer.now)
            ≡ plan_of self.now.factors.now self.now.runs.now self.now.output.now seed
            self.now.inner.now self.now.outer.now) }
        ensures there { IfOk result (λ a. All (λ r. r < length a.runs.rows
            * length self.now.inner.now.rows * length self.now.outer.now.rows) a.order.items) }
    {
        let values = self.first_values()?;
        let rows = row_count(self.runs, self.inner, self.outer)?;
        let order = in_order(self.alloc, rows)?;
        match self.output.shuffle {
            Shuffle::Kept => self.ordered(order, values),
            Shuffle::Default { values: too } => self.shuffled(order, values, too, seed),
            Shuffle::Seed {
                seed: own,
                values: too,
            } => self.shuffled(order, values, too, own),
        }
    }

    /// The values of the codes of each column, before they are shuffled.
    fn first_values(&self) -> Result<Vec<Vec<Bytes>>, NoMemory>
        ensures values { IfOk result (λ values. map (λ v. v.items) values.items
            ≡ column_values self.now.runs.now.shape.q self.now.runs.now.shape.s
            self.now.output.now.recodes self.now.output.now.derived) }
        ensures fit { IfOk result (λ values.
            AreValues self.now.runs.now self.now.output.now (map (λ v. v.items) values.items)) }
    {
        let shape = self.runs.shape();
        let derived = self.output.derived.as_slice();
        let free = free_places(self.alloc, shape.s, derived)?;
        let recodes = self.output.recodes.as_slice();
        let values = column_values(self.alloc, shape.q, recodes, free.as_slice(), derived)?;
        Ok(values)
    }

    /// The same with shuffled rows, and with shuffled values where that is asked too.
    fn shuffled(
        &self,
        order: Vec<u32>,
        values: Vec<Vec<Bytes>>,
        too: bool,
        seed: u64,
    ) -> Result<Arranged, NoMemory>
        requires { IsArrangement self.now.runs.now self.now.output.now self.now.inner.now
            self.now.outer.now order.items (map (λ v. v.items) values.items) }
        ensures plan { let runs = self.now.runs.now in
            let each = length self.now.inner.now.rows in
            let a = shuffled_by (generator seed) too
            (λ r. block_of runs (run_of each (length runs.rows) r)) (runs.shape.q ^ runs.shape.t)
            (arrangement order.items (map (λ v. v.items) values.items)) in
            IfOk result (λ x. picked x.order.items (replicated x.runs self.now.inner.now self.now.outer.now)
            ≡ planned self.now.factors.now runs self.now.output.now self.now.inner.now self.now.outer.now a) }
        ensures there { IfOk result (λ a. All (λ r. r < length a.runs.rows
            * length self.now.inner.now.rows * length self.now.outer.now.rows) a.order.items) }
    {
        let mut rng = Pcg64::seed_from_u64(seed);
        let each = self.inner.len();
        let all = self.outer.len();
        let order = shuffled_in_blocks(
            self.alloc,
            &mut rng,
            self.runs,
            each,
            all,
            order.as_slice(),
        )?;
        let values = shuffled_values(&mut rng, values, too);
        self.ordered(order, values)
    }

    /// The same with the rows in this order, and with these values for the codes of each column.
    fn ordered(&self, order: Vec<u32>, values: Vec<Vec<Bytes>>) -> Result<Arranged, NoMemory>
        requires { IsArrangement self.now.runs.now self.now.output.now self.now.inner.now
            self.now.outer.now order.items (map (λ v. v.items) values.items) }
        ensures plan { IfOk result (λ x. picked x.order.items (replicated x.runs self.now.inner.now self.now.outer.now)
            ≡ planned self.now.factors.now self.now.runs.now self.now.output.now self.now.inner.now
            self.now.outer.now (arrangement order.items (map (λ v. v.items) values.items))) }
        ensures there { IfOk result (λ a. All (λ r. r < length a.runs.rows
            * length self.now.inner.now.rows * length self.now.outer.now.rows) a.order.items) }
    {
        let runs = runs_table(self, values)?;
        Ok(Arranged { runs, order })
    }
}

/// How many rows a plan has. A number that 32 bits do not hold is taken for want of memory.
fn row_count(runs: &Runs, inner: &Plan, outer: &Plan) -> Result<u32, NoMemory>
    ensures { IfOk result (λ n. n
        ≡ length runs.now.rows * length inner.now.rows * length outer.now.rows) }
{
    let Some(each) = runs.len().checked_mul(inner.len()) else {
        return Err(NoMemory);
    };
    let Some(rows) = each.checked_mul(outer.len()) else {
        return Err(NoMemory);
    };
    match u32::try_from(rows) {
        Ok(rows) => Ok(rows),
        Err(_) => Err(NoMemory),
    }
}

/// The values, shuffled where that is asked.
fn shuffled_values(rng: &mut Pcg64, values: Vec<Vec<Bytes>>, asked: bool) -> Vec<Vec<Bytes>>
    ensures values { map (λ v. v.items) result.items
        ≡ shuffled_values asked rng.old (map (λ v. v.items) values.items) }
    ensures lengths { map length (map (λ v. v.items) result.items)
        ≡ map length (map (λ v. v.items) values.items) }
{
    let mut values = values;
    if asked {
        shuffle_each(rng, values.as_mut_slice());
    }
    values
}
