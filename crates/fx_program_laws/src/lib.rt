//! Laws on the defined output of the program, most of them for every text.
#![tactic(auto)]

mod laws;

pub use laws::{
    accepted_books_prove_their_claims, books_are_accepted_in_any_text,
    budget_ends_where_nodes_pass_it, catalogued_books_are_accepted, claims_have_books,
    designs_meet_what_is_asked_in_any_text, faults_have_a_message_and_a_place, file_names_differ,
    first_design_is_given, given_designs_in_any_text, greatest_status_decides,
    highest_resolution_in_any_text, highest_resolution_in_blocks_in_any_text,
    least_pattern_in_any_text, least_size_in_any_text, listed_rules_are_read_back,
    made_texts_are_programs, most_blocks_in_any_text, no_design_in_any_text,
    no_design_means_none_at_all, none_past_the_last_line, rules_give_the_levels_in_any_text,
    threads_change_nothing, upgraded_books_have_the_same_verdict, valid_steps_in_any_text,
};
