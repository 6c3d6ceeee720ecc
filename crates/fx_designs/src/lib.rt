//! The mathematics of regular fractional factorial designs, as definitions: what a reader has to believe.
//! There is no code here. Each notion has a file in `specs/`.
#![tactic(auto)]
