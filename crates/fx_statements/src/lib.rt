//! The program of a text: its steps, or the first refusal.
#![tactic(auto)]

mod components;
mod demands;
mod examine;
mod fold;
mod laws;
mod outcome;
mod parsing;
mod step;
mod stepping;

pub use components::listed_factors;
pub use examine::Examine;
pub use fold::Fold;
pub use fx_outputs::{Derived, Deriveds, OutputSpec, Outputs, Recode, Recodes, Rep, Shuffle};
pub use fx_settings::{Blocks, Criterion, Size, StepSettings};
pub use fx_text::{Names, ParseStop, Refusal};
pub use fx_vectors::Demands;
pub use laws::{
    model_is_read_by_the_grammar, refusals_have_a_rule_and_a_place,
    sections_are_read_by_the_grammar,
};
pub use outcome::{End, Outcome};
pub use parsing::{Program, parse};
pub use step::Step;
