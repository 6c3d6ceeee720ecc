//! Designs with a base: ordinary, in blocks, and split plots. What a good book of a table proves of
//! all of them.
#![tactic(auto)]

mod laws;
mod moving;

pub use laws::{
    canonical_designs_suffice, clear_words, earlier_images, fewer_factors, good_books_prove,
    isomorphic_designs_are_least, named_orders_compare_once, none_below, none_without_room,
    rule_matrices_are_ordinary_designs, words_by_tallies,
};
pub use moving::moved_row;
