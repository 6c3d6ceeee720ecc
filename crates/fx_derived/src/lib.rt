//! Derived factors, whose levels are those of several factors together, and tables of texts that are
//! crossed: what plans are made of.
#![tactic(auto)]

mod balanced;
mod code;
mod crossing;
mod laws;
mod packing;
mod pieces;
mod row;
mod table;
mod texts;

pub use balanced::{level_at, levels_balanced};
pub use code::derived_code;
pub use crossing::cross;
pub use laws::{codes_differ, each_pair_once};
pub use row::Row;
pub use table::Table;
pub use texts::Texts;
