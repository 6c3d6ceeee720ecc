//! The answer of a step: the questions that it asks, and the outcome of the searches for its design.
#![tactic(auto)]

mod answering;
mod booking;
mod question;

pub use answering::answer;
pub use question::question_for;
