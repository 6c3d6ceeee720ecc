ghost use Rattle.std.specs.Prelude.{◌≡◌, ◌++◌, ◌∷◌, [], map, slice_index_or, IfOk, None, OnErr, OnOk};
ghost use Rattle.std.specs.Char.{to_ascii_lowercase};
ghost use Rattle.fx_text.specs.Names.{place_of};
ghost use Rattle.fx_outputs.specs.Earlier.{plan_names, rep_rows};

use crate::replication::Rep;
use fx_base::{Bytes, NoMemory};
use fx_text::Names;
use std::alloc::Global;
use std::collections::BTreeMap;
use std::marker::Model;

/// What later OUTPUT statements need of an accepted one.
pub struct EarlierPlan {
    /// Its OUT name.
    pub name: Bytes,
    /// How many rows its file has at most.
    pub rows: u32,
    /// The names of the columns of its file, but for those of the plans that it names.
    pub own: Names,
    /// How often each run is repeated in a row.
    pub pointrep: Rep,
    /// How often the whole design is repeated.
    pub designrep: Rep,
}

// Not derived, so that a place that drops one is proved with one call.
impl Drop for EarlierPlan {
    fn drop(self) {
        let EarlierPlan {
            name: _,
            rows: _,
            own: _,
            pointrep: _,
            designrep: _,
        } = self;
    }
}

/// The plans of the OUTPUT statements of a program so far, in order. Clauses see the list. A name is
/// found in a number of steps that grows with the logarithm of how many there are.
pub struct EarlierPlans {
    plans: Vec<EarlierPlan>,
    /// The number of each plan by its name in lowercase.
    numbers: BTreeMap<Vec<u8>, u32>,
}

// Not derived, so that a place that drops one is proved with one call.
impl Drop for EarlierPlans {
    fn drop(self) {
        let EarlierPlans {
            plans: _,
            numbers: _,
        } = self;
    }
}

impl Model for EarlierPlans {
    ghost use Rattle.std.specs.Prelude.{List};
    ghost use Rattle.fx_outputs.specs.declared.earlier.EarlierPlan.{EarlierPlan};
    ghost use Rattle.fx_outputs.specs.Earlier.{AreNumbered, plan_names};

    ghost Value = { List EarlierPlan };

    ghost view = { λ n. n.plans.items };

    ghost invariant = { λ n. AreNumbered (plan_names n.plans.items) n.numbers.entries };
}

impl EarlierPlans {
    /// No plans.
    pub fn new(alloc: Global) -> EarlierPlans
        ensures { result ≡ [] }
    {
        EarlierPlans {
            plans: Vec::new(alloc),
            numbers: BTreeMap::new(alloc),
        }
    }

    /// The plans, in order.
    pub(crate) fn as_slice(&self) -> &[EarlierPlan]
        ensures { result.now ≡ self.now }
    {
        self.plans.as_slice()
    }

    /// The number of the plan with this name, counted from 0, without regard to case.
    pub(crate) fn find(&self, alloc: Global, name: &[u8]) -> Result<Option<u32>, NoMemory>
        ensures { IfOk result (λ number. number ≡ place_of name.now (plan_names self.now)) }
    {
        let key = folded(alloc, name)?;
        match self.numbers.get(key.as_slice()) {
            Some(number) => Ok(Some(*number)),
            None => Ok(None),
        }
    }

    /// Adds a plan with a new name.
    pub(crate) fn push(&mut self, alloc: Global, plan: EarlierPlan) -> Result<(), NoMemory>
        requires { place_of plan.name (plan_names self.old) ≡ None }
        ensures pushed { OnOk result (self.new ≡ self.old ++ plan ∷ []) }
        ensures unchanged { OnErr result (self.new ≡ self.old) }
    {
        let key = folded(alloc, plan.name.as_slice())?;
        let number = match u32::try_from(self.plans.len()) {
            Ok(number) => number,
            Err(_) => return Err(NoMemory),
        };
        match self.plans.push(plan) {
            Ok(()) => {}
            Err(_) => return Err(NoMemory),
        }
        match self.numbers.insert(key, number) {
            Ok(_) => return Ok(()),
            Err(_) => {}
        }
        self.plans.pop();
        Err(NoMemory)
    }

    /// How many rows of a replication each run, or the whole design, comes with.
    pub(crate) fn rep_rows(&self, rep: Rep) -> u32
        ensures { result ≡ rep_rows self.now rep }
    {
        match rep {
            Rep::Times(n) => n,
            Rep::Plan(number) => match self.plans.get(number as usize) {
                Some(plan) => plan.rows,
                None => 0,
            },
        }
    }
}

/// The name in lowercase.
fn folded(alloc: Global, name: &[u8]) -> Result<Vec<u8>, NoMemory>
    ensures { IfOk result (λ folded. folded.items ≡ map to_ascii_lowercase name.now) }
{
    let mut folded = Vec::new(alloc);
    for byte in name {
        match folded.push(byte.to_ascii_lowercase()) {
            Ok(()) => {}
            Err(_) => return Err(NoMemory),
        }
    }
    Ok(folded)
}
