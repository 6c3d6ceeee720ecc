//! Sets of points, which are named by their numbers, and sums of points.
#![tactic(auto)]

mod lanes;
mod point_set;
mod sums;
mod swap;

pub use point_set::PointSet;
pub use sums::Sums;
