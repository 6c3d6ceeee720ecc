//! The listing of a step: its head, the rules of its design, and the sections that EXAMINE asks for.
#![tactic(auto)]

mod aliasing;
mod block_span;
mod block_words;
mod blocked;
mod class;
mod clear;
mod design;
mod fold;
mod given;
mod head;
mod laws;
mod lines;
mod listed;
mod marks;
mod pattern;
mod rules;
mod sections;

pub use aliasing::alias_listing;
pub use blocked::blocked_listing;
pub use design::design_listing;
pub use fold::fold_listing;
pub use given::given_listing;
pub use head::head_listing;
pub use laws::{
    aliased_where_class_numbers_agree, aliased_where_sums_are_multiples, classes_by_number,
    components_are_counted, components_are_the_normal_vectors, each_component_once,
    each_row_has_its_rule,
};
pub use marks::BlockMarks;
pub use pattern::pattern_listing;
pub use rules::rules_listing;
pub use sections::examine_listing;
