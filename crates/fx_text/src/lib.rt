//! What is written in a program text: words, numbers and signs with their places, names and ranges
//! of names, statements and steps. And the places at which a text is refused.
#![tactic(auto)]

mod laws;
mod lexeme;
mod name;
mod phrase;
mod range;
mod refusal;
mod statement;

pub use fx_lexer::Place;
pub use laws::statements_are_those_of_the_grammar;
pub use lexeme::{Lexeme, Lexemes, lexemes, number};
pub use name::{Names, is_same_name, place_of};
pub use phrase::Phrase;
pub use range::{is_range, number_at_end, numbered_name, range_end, stem};
pub use refusal::{ParseStop, Refusal};
pub use statement::{Statement, Statements, find, statements};
