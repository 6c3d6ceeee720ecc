//! The program: its words, its text, its messages, and the call that does it all.
#![tactic(auto)]

mod catalogue_words;
mod cataloguing;
mod checking;
mod files;
mod fold;
mod giving;
mod judging;
mod lister;
mod listing;
mod making;
mod output_lines;
mod plan_fault;
mod planning;
mod plans;
mod refusal;
mod run;
mod session;
mod status;
mod stop;
mod streaming;
mod summary;
mod table_checking;
mod table_names;
mod table_options;
mod table_words;
mod tabulating;
mod text;
mod upgrading;
mod word_fault;
mod words;

pub use making::make_text;
pub use run::factex;
pub use stop::{NO_MEMORY, Stop, exit_status};
pub use table_words::AskedTable;
pub use text::{TextFault, TextStop, read_program};
pub use word_fault::{WordFault, WordFaultKind};
pub use words::{Settings, read_words, word_line};
