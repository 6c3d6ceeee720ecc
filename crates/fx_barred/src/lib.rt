//! Which rows are barred by the rows so far.
#![tactic(auto)]

mod best_words;
mod first_words;
mod kept;
mod laws;
mod next_vectors;
mod reached;

pub use best_words::{Best, fill_light, fill_next, points_with_words};
pub use first_words::FirstWords;
pub use laws::{
    reached_at_zero, reached_before, reached_word, rows_barred_at_resolution,
    rows_barred_for_effects, rows_barred_in_blocks,
};
pub use reached::{Reached, filled};
