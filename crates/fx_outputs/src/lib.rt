//! The meaning of OUTPUT statements: what files a step writes, or where its text is refused.
#![tactic(auto)]

mod block;
mod columns;
mod context;
mod derived;
mod earlier;
mod laws;
mod option;
mod output;
mod own_columns;
mod plan_columns;
mod recode;
mod replication;
mod shuffle;
mod value;

pub use context::{BlockCount, OutputContext};
pub use derived::{Derived, Deriveds};
pub use earlier::{EarlierPlan, EarlierPlans};
pub use laws::{
    columns_differ, named_plans_are_earlier, names_are_read_by_the_grammar, out_names_differ,
    outputs_have_names, plans_keep_the_limit,
};
pub use output::{OutputSpec, Outputs, outputs};
pub use recode::{Recode, Recodes};
pub use replication::Rep;
pub use shuffle::Shuffle;
