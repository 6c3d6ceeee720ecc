//! Laws on all rule matrices: what meets a requirement can be brought to canonical form, and is then no worse.
#![tactic(auto)]

mod blocks;
mod reduction;
mod resolutions;
mod steps;
mod strengths;
mod words;

pub use blocks::most_block_factors;
pub use reduction::{
    canonical_for_every_matrix, least_pattern_of_all, met_where_allowed, none_where_none_at_all,
};
pub use resolutions::{highest_resolution, no_higher_resolution_is_met, resolution_is_met};
pub use steps::{change_keeps_zero_sums, raising_the_rank, reordering_factors, scaling_rows};
pub use strengths::{
    allowed_without_the_last_row, less_asked_is_met, prefix_has_no_more_words,
    resolutions_as_effects, runs_met_in_words,
};
pub use words::pattern_counts_zero_sums;
