//! Fold-over: a design of two levels, followed by the same runs with levels exchanged.
#![tactic(auto)]

mod laws;
mod pattern;
mod plan;

pub use laws::{
    combined_plan_is_regular, combined_words_are_even, full_fold_has_no_odd_word,
    resolution_is_not_lower,
};
pub use pattern::fold_pattern;
pub use plan::fold_runs;
