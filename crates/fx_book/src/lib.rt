//! Books: which a question has, and the making of it; books as texts, what is written, and what is read
//! back, or the first fault of a text.
#![tactic(auto)]

mod beat;
mod book;
mod demands;
mod entry;
mod fault;
mod front;
mod head;
mod laws;
mod part;
mod pieces;
mod question_book;
mod reading;
mod streaming;
mod tail;
mod version;
mod word;
mod writing;

pub use book::{read_book, word_count};
pub use entry::read_entry;
pub use fault::{BookFault, BookStop, FaultKind};
pub use front::{Front, read_head};
pub use laws::{
    books_come_back, entries_come_back, only_books_are_read, read_books_are_valid,
    rewritten_books_are_the_same,
};
pub use part::{is_word, line_end, next_stop, number};
pub use pieces::book_pieces;
pub use question_book::{absence_book, least_book};
pub use streaming::{WriteStop, stream_book};
pub use version::Version;
pub use writing::{put_after_blank, put_line, write_book, write_entry, write_head};
