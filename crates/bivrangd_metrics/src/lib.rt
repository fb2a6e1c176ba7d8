//! The numbers of a server, as text for Prometheus, over HTTP.
#![tactic(auto)]

mod guests;
mod holdings;
mod http;
mod metrics;
mod resources;
mod sources;
mod unix;

pub use guests::{Metrics, listen_for_metrics};
pub use metrics::Facts;
pub use resources::Resources;
pub use sources::Source;
pub use unix::unix_time;
