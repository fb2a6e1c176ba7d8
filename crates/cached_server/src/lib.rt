//! The program: its words, and a server of what a configuration file says.
#![tactic(auto)]

mod announcing;
mod devices;
mod endings;
mod hosts;
mod lines;
mod machine;
mod outbox;
mod program;
pub mod script;
mod services;

pub use announcing::{Outlet, Scribe, Site};
pub use devices::{ListLoader, StartClock};
pub use endings::{Cause, Ending};
pub use lines::Lines;
pub use machine::{Machine, Shown, Threaded};
pub use outbox::{Outbox, ROOM};
pub use program::{cached, serve_config, serve_text};
pub use script::{Fault, run_script, take_words, without_words};
pub use services::make_service;
