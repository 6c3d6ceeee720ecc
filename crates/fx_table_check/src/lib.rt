//! The checker of books of tables of designs in blocks and split plots.
#![tactic(auto)]

mod coset;
mod effects;
mod falling;
mod floor;
mod following;
mod goal;
mod image;
mod key;
mod laws;
mod least;
mod moved;
mod others;
mod prefix;
mod reason;
mod stage;
mod unclear;
mod units;
mod walk;

pub use goal::Goal;
pub use key::key_of_rows;
pub use laws::good_books_have_no_flaw;
pub use prefix::Prefix;
pub use reason::{Reason, Verdict};
pub use walk::check_table;
