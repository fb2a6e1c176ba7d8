//! The types of configurations, events, inputs and transcripts, which the definitions use. `audit` judges transcripts of these types.

pub use audit_model::{
    Accepted, Bytes, Closing, Command, Config, Conn, Event, EvictionPolicy, Input, Instant,
    LineError, LoadId, Note, Outcome, Record, RemovalCause, Seq, ServiceError, Step, Transcript,
    Weight,
};
