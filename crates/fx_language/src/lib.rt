//! The language of programs: its symbols, its grammar, and where a program is first refused.
//!
//! A program is refused by the grammar, or by the rules on words that are repeated or too late. Each
//! is a pass over its symbols, and the earlier refusal decides.
//!
//! The grammar is run as a finite automaton. A state is a place in the grammar, and represents what of
//! the grammar is left there. Each move is proved to lead to a place where that is left which the
//! grammar leaves after the symbol. The grammar nests nothing, so some seventy places are enough.
#![tactic(auto)]

pub mod code;
mod effects;
mod examine;
mod factors;
mod foldover;
mod keyword;
mod laws;
mod model;
mod output;
mod proc;
mod refusal;
mod repeated;
mod setting;
mod state;
mod symbol;
mod symbol_set;
mod token;
mod values;

pub use laws::{
    accepted_is_a_program, after_is_what_follows, codes_change_no_text, named_codes_in_words,
    refused_by_its_code, refused_is_the_first, sequence_is_one_before_another,
};
pub use refusal::{first_by_grammar, first_refusal};
pub use repeated::first_by_rules;
pub use symbol::{Symbol, Symbols};
pub use token::symbols;
