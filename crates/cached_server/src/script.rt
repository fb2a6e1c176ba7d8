//! The program's words, its texts, and its run over standard streams.
mod faults;
mod gathering;
mod notes;
mod program;
mod sources;
mod words;

pub use faults::{Fault, fail, fault_of, tell_both, text_of, without_words};
pub use gathering::{put, write_out};
pub use program::run_script;
pub use words::{Chosen, take_words};
