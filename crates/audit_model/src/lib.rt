//! The types of the line protocol's events and records, the definitions that contracts cite, and the numbers of loads under way.
#![tactic(auto)]

mod command;
mod config;
mod event;
mod input;
mod key;
pub mod loads;
mod note_key;
mod seq;
mod short;
mod transcript;

pub use command::{Closing, Command, LineError};
pub use config::{Config, EvictionPolicy, Weight};
pub use event::{Event, Instant, Outcome};
pub use input::{Conn, Input, LoadId, ServiceError};
pub use key::Key;
pub use note_key::NoteKey;
pub use seq::{Bytes, Seq, copy_bytes};
pub use transcript::{Accepted, Note, Record, RemovalCause, Step, Transcript};
