//! A connection's lines, over any store and any tape.
#![tactic(auto)]

mod base;
mod draining;
mod joining;
pub mod leads;
mod looping;
mod output;
mod readying;
mod running;
pub mod tape;

pub use base::Base;
pub use draining::{drain, most_notes};
pub use leads::{
    answer_settles, delivered_leads, give_up_settles, lines_lead, records_wait_for_loads,
    run_again_leads, steps_lead_on, told_waits,
};
pub use looping::End;
pub use output::ReplyBuffer;
pub use readying::run_lines;
pub use running::{LineOutcome, run_line};
pub use tape::{Bare, Kept, Spare, Tape, new_spares};
