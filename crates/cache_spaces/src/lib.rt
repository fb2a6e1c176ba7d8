//! A cache behind a line protocol: namespaces, connections, loads.
#![tactic(auto)]

mod cursors;
mod journals;
mod making;
mod playing;
mod replies;
mod service;
mod stepping;
mod tapes;
mod told;

pub use audit_laws::Output;
pub use cache_core::Owed;
pub use journals::RecordedService;
pub use playing::play;
pub use replies::LentReplies;
pub use service::{AnswerError, Core, Fed, Service, SpaceStore};
pub use stepping::Refusal;
pub use tapes::NewTape;
pub use told::copy_note;
