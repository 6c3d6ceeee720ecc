//! What every other crate uses: lists, and the objects outside the program.
#![tactic(auto)]

mod failed;
mod file_bounds;
mod file_buffer;
mod items;
mod laws;
mod listed_calls;
mod memory;
mod memory_shelf;
mod memory_sink;
mod memory_source;
mod reading;
mod shelf;
mod sink;
mod source;
mod sure_shelf;
mod sure_sink;
mod sure_source;
mod text;
mod values;
mod writing;

pub use failed::Failed;
pub use items::Items;
pub use laws::{all_acts_in_words, front_part_in_words};
pub use memory::NoMemory;
pub use memory_shelf::MemoryShelf;
pub use memory_sink::MemorySink;
pub use memory_source::MemorySource;
pub use reading::{ReadStop, Taken, read_all};
pub use shelf::Shelf;
pub use sink::Sink;
pub use source::Source;
pub use sure_shelf::SureShelf;
pub use sure_sink::SureSink;
pub use sure_source::SureSource;
pub use text::{put, put_number};
pub use values::{Bytes, Values};
pub use writing::{shelve, shelve_pieces, write_all};
