//! Laws of fields, vectors, runs and canonical prefixes, which the crates above cite.
#![tactic(auto)]

mod laws;

pub use laws::{answer_is_the_first_design, canonical_prefix_in_words};
