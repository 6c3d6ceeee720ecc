//! Lines of tables of designs in blocks and split plots: their search, for rows of least key with a book that proves it
//! and that the checker has accepted, and their texts.
#![tactic(auto)]

mod basis;
mod figures;
mod head;
mod image;
mod line;
mod listing;
mod order;
mod points;
mod rules;
mod scaling;
mod seed;
mod walk;

pub use head::put_head;
pub use line::{TableLine, table_line};
pub use listing::put_line;
pub use rules::is_power;
