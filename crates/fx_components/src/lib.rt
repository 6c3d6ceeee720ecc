//! The components that a listing speaks of, in their order, and products of factors as it prints them.
#![tactic(auto)]

mod components;
mod product;

pub use components::list_components;
pub use product::put_product;
