//! Catalogues of designs of least aberration, each line with a book that proves that no pattern is less.
#![tactic(auto)]

mod laws;
mod line;
mod listing;

pub use laws::{budget_ends_where_passed, lines_are_of_all_matrices, none_with_more_factors};
pub use line::{Line, least_line};
pub use listing::{put_head, put_line, put_pattern};
