//! The types of configurations, events, inputs and transcripts, which the definitions use, under the names that they have in `moka_audit`.

pub use audit_model::{
    Accepted, Bytes, Closing, Command, Config, Conn, Event, EvictionPolicy, Input, Instant,
    LineError, LoadId, Note, Outcome, Record, RemovalCause, Seq, ServiceError, Step, Transcript,
    Weight,
};
