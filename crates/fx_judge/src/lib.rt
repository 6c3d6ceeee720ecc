//! Plans that were made elsewhere: what a file of comma-separated fields tells, which of its components
//! are aliased or orthogonal, and whether it is regular.
#![tactic(auto)]

mod basis;
mod combinations;
mod fault;
mod field;
mod kinship;
mod laws;
mod listing;
mod name;
mod pairs;
mod plan;
mod reading;
mod records;
mod regular;
mod rule;
mod tally;
mod value;

pub use fault::{FaultKind, PlanFault, PlanStop};
pub use kinship::{Kinship, kinship_of};
pub use laws::{
    aliased_over_replicated_runs, regular_plans_have_no_partial_pair, regular_where_even,
};
pub use listing::judge_listing;
pub use plan::Plan;
pub use reading::read_plan;
pub use regular::rules_of;
pub use rule::{Rule, Rules};
