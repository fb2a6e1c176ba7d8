//! What a connection is served with: a reader, a writer, a clock and a loader; and why it stops before its end.
mod errors;
mod output;
mod sources;
mod watched;

pub use errors::RunError;
pub use output::send;
pub use sources::{Clock, Loader};
pub use watched::Watched;
