//! The program over any reader and writer of the standard library, from the command line to the exit status.
#![tactic(auto)]

mod current_folder;
mod folder;
mod folder_shelf;
mod input;
mod output;
mod running;
mod standard;
mod starting;
mod words;

pub use current_folder::CurrentFolder;
pub use folder::Folder;
pub use folder_shelf::FolderShelf;
pub use input::Input;
pub use output::Output;
pub use running::{Ran, run};
pub use standard::run_standard;
pub use starting::{NO_TEXT, start, status_without_words};
pub use words::words_after_name;
