//! The tokens of a program text, with their places, or its first lexical fault.
#![tactic(auto)]

mod byte;
mod extent;
mod item;
mod laws;
mod lexing;
mod place;
mod token;

pub use laws::{spans_hold_the_pieces, text_is_pieces, tokens_and_faults_have_places};
pub use lexing::lex;
pub use place::Place;
pub use token::{Kind, LexFault, LexStop, Token, Tokens};
