//! The reader of the text form of transcripts, and of the inputs of a replay.
mod fields;
mod gathering;
mod inputs;
mod item;
mod lines;
mod reading;

pub use fields::TextError;
pub use inputs::{Replay, read_inputs};
pub use reading::{read_transcript, texts_tell_transcripts_apart};
