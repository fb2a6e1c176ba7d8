//! A cache behind a line protocol: namespaces with their connections, journals, serving readers and writers, playing lists of inputs, and
//! services that threads share.
//!
//! The types of configurations, inputs and transcripts are those of `moka_audit`; the module `model` re-exports them. A `Notice`, which
//! `next_notice` returns, is the `Note` of a transcript.
#![tactic(auto)]

mod cutting;
mod devices;
mod hosting;
pub mod model;
mod parting;
mod pausing;
mod serving;
mod sitting;
mod workers;

pub use audit_laws::Receipt;
pub use audit_model::{Conn, LoadId, Note as Notice, ServiceError};
pub use cache_run::{Clock, Loader, RunError, Watched, run};
pub use cache_shared::{
    Books, Finished, Intake, IntakeError, Seat, Seating, Shareable, SharedService,
};
pub use cache_spaces::{
    AnswerError, Core, Fed, LentReplies, Output, Owed, RecordedService, Refusal, Service,
    copy_note, play,
};
pub use devices::{Devices, Teller, Untold};
pub use hosting::{Hosted, host};
pub use serving::{serve, serve_and_tell};
pub use sitting::Sitting;
