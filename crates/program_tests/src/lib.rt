//! Tests of the crates of the program, in a crate of their own: a crate with tests is proved twice, and
//! each crate with tests is linked and proved down to the machine.
#![tactic(auto)]

#[cfg(test)]
mod alias;
#[cfg(test)]
mod complete;
#[cfg(test)]
mod edge;
#[cfg(test)]
mod given;
#[cfg(test)]
mod judge;
#[cfg(test)]
mod plan;
#[cfg(test)]
mod program;
#[cfg(test)]
mod rules;
#[cfg(test)]
mod table_lines;
#[cfg(test)]
mod table_rules;

// A helper ends the test where memory runs out, by `expect`, and hands on no error: each way out of a function is
// proved, with all that is dropped on it.

/// The rows of a table. The contract says nothing of them, so that no proof of a loop reads them all.
#[cfg(test)]
fn rows_of<T>(table: &[T]) -> &[T] {
    table
}
