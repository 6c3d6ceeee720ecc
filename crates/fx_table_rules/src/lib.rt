//! Rule matrices of canonical designs with a base, as the lines of tables print their rules: over the first independent
//! factors, with block factors after the others.
#![tactic(auto)]

mod forms;
mod laws;
mod rules;

pub use laws::rules_give_the_design;
pub use rules::rule_matrix;
