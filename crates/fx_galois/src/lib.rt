//! The fields GF(q) of the seven orders that designs use, and their laws.
#![tactic(auto)]

mod field;
pub mod laws;
mod tables;

pub use field::Field;
