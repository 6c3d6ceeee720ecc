//! Books of tables of designs in blocks and split plots, and their texts both ways.
#![tactic(auto)]

mod base;
mod book;
mod front;
mod laws;
mod line;
mod order;
mod reading;
mod writing;

pub use base::Base;
pub use book::{Entry, MOST_INDEXES, TableBook};
pub use laws::{
    first_table_books_come_back, only_table_books_are_read, read_table_books_are_valid,
    table_books_come_back,
};
pub use order::{Order, Part, parts};
pub use reading::{MOST_TABLE_BYTES, read_table_book};
pub use writing::{write_table_book, write_table_entry};
