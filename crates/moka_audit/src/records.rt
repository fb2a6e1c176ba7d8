//! The judge of transcripts: the first record of one that breaks a rule.
mod admitting;
mod auditing;
mod duties;
mod records;

pub use auditing::Verdict;
pub use records::find_break;
