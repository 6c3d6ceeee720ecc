//! The rules of a design, as a listing prints them or a hand writes them: where they stand in a text, and the rule
//! matrix that they give.
#![tactic(auto)]

mod blanking;
mod building;
mod laws;
mod met;
mod naming;
mod parts;
mod place;
mod problem;
mod reading;
mod signs;
mod words;

pub use blanking::blanked;
pub use laws::{
    blanks_keep_places, canonical_matrices_are_stepped, given_matrices_are_rule_matrices,
    given_rules_give_the_levels, printed_rules_are_read, table_rules_are_read,
};
pub use met::are_met;
pub use parts::{Part, parts_of};
pub use place::place_after;
pub use problem::{Problem, RulesFault};
pub use reading::read_rules;
