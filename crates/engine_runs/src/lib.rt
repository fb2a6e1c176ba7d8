//! Maintenance of the fast cache: it applies pending reads and writes as the reference cache does, and then removes what is
//! due, found at the fronts alone.
#![tactic(auto)]

mod applying;
mod contesting;
mod covered;
mod deciding;
mod displacing;
mod fronts;
mod running;
mod sweeping;
mod table;

pub use applying::{apply_put, apply_reads, apply_write, apply_writes};
pub use deciding::{Decision, decide};
pub use fronts::next_leaving;
pub use running::{run, run_if_due, try_run};
pub use sweeping::{settle, sweep};
