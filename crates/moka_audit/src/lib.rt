//! The definitions of a right cache behind a line protocol: the types of configurations, events and transcripts.
//!
//! Contracts cite the definitions of `audit_model`; the functions of `laws` are the laws about them. `audit` judges any transcript.
#![tactic(auto)]

mod auditing;
pub mod laws;
pub mod model;
pub mod records;
pub mod steps;

pub use audit_laws::{Output, Receipt, receipts_stand};
pub use audit_model::{
    Accepted, Bytes, Closing, Command, Config, Conn, Event, EvictionPolicy, Input, Instant,
    LineError, LoadId, Note, Outcome, Record, RemovalCause, Seq, ServiceError, Step, Transcript,
    Weight,
};
pub use auditing::audit;
pub use records::{Verdict, find_break};
pub use steps::{Doing, Duty, Shown, judge, show};
