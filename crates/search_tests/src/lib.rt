//! Tests of the crates of the search, in a crate of their own: a crate with tests is proved twice, and
//! each crate with tests is linked and proved down to the machine.
#![tactic(auto)]

#[cfg(test)]
mod answer;
#[cfg(test)]
mod barred;
#[cfg(test)]
mod board;
#[cfg(test)]
mod book;
#[cfg(test)]
mod catalogue;
#[cfg(test)]
mod checker;
#[cfg(test)]
mod demands;
#[cfg(test)]
mod job;
#[cfg(test)]
mod points;
#[cfg(test)]
mod questions;
#[cfg(test)]
mod searches;
#[cfg(test)]
mod table_books;
#[cfg(test)]
mod threads;
#[cfg(test)]
mod tree;
#[cfg(test)]
mod watching;
#[cfg(test)]
mod words;

// A helper ends the test where memory runs out, by `expect`, and hands on no error: each way out of a function is
// proved, with all that is dropped on it.

/// The rows of a table. The contract says nothing of them, so that no proof of a loop reads them all.
#[cfg(test)]
fn rows_of<T>(table: &[T]) -> &[T] {
    table
}
