//! Tests of the crates of the language, in a crate of their own: a crate with tests is proved twice,
//! and each crate with tests is linked and proved down to the machine.
#![tactic(auto)]

#[cfg(test)]
use fx_base::Bytes;
#[cfg(test)]
use fx_text::Names;
#[cfg(test)]
use std::alloc::Global;
#[cfg(test)]
use std::process::Abort;

#[cfg(test)]
mod effects;
#[cfg(test)]
mod language;
#[cfg(test)]
mod lexer;
#[cfg(test)]
mod outputs;
#[cfg(test)]
mod statements;
#[cfg(test)]
mod syntax;

// A helper ends the test where memory runs out, by `expect`, and hands on no error: each way out of a function is
// proved, with all that is dropped on it.

/// The names in a text, between blanks.
#[cfg(test)]
fn names_in(rt: &impl Abort, alloc: Global, text: &str) -> Names {
    let mut names = Names::new(alloc);
    for name in text.split_whitespace() {
        let name = Bytes::from_slice(alloc, name.as_bytes()).expect(rt, "memory");
        names.push(name).expect(rt, "memory");
    }
    names
}

/// The rows of a table. The contract says nothing of them, so that no proof of a loop reads them all.
#[cfg(test)]
fn rows_of<T>(table: &[T]) -> &[T] {
    table
}
