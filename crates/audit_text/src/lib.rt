//! The text form of transcripts, and its writer: lines that a person can read, for a journal that is saved or judged elsewhere.
#![tactic(auto)]

mod line;
pub mod reader;
mod words;
mod writing;

pub use line::{
    put_answer, put_close, put_config, put_event, put_feed, put_give_up, put_made, put_note,
    put_own,
};
pub use reader::{Replay, TextError, read_inputs, read_transcript, texts_tell_transcripts_apart};
pub use words::{put, put_number};
pub use writing::{put_whole_step, write_transcript};
