//! The effects that a MODEL statement names: products of factors, joined by bars, and ranges.
#![tactic(auto)]

mod distinct;
mod expression;
mod expressions;
mod factor;
mod lists;
mod model;
mod range;
mod stars;

pub use model::{ModelEffects, effects_of};
