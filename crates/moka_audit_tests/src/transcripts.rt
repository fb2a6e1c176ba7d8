//! Tests of the text form of transcripts, and verdicts on transcripts in it: hostile ones, and
//! those that wrong services would make.
mod hostile;
mod loads;
mod reading;
pub mod rows;
mod wrong;
