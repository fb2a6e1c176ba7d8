//! The judgement of one step of a transcript, by the situation before it.
mod accepting;
mod doing;
mod judging;
mod keys;
mod owing;
mod replies;
mod shown;

pub use audit_situation::Doing;
pub use judging::judge;
pub use shown::{Duty, Shown, show};
