//! What a record says of a step, and what is due.
ghost use Rattle.std.specs.Prelude.{◌≡◌, ◌||◌, not, option_map, nat_le, if◌then◌else◌};
ghost use Rattle.audit_model.specs.History.{Abandoning};
ghost use Rattle.audit_model.specs.Steps.{action_in, action_of_line, is_task_of, may_hold};
ghost use Rattle.audit_situation.specs.Actions.Doings.{action_of};
ghost use Rattle.moka_audit.specs.Steps.Showing.{shown_step, task_of, runs_lines, is_store_due};

use crate::steps::doing::is_hold;
use audit_lines::read_line;
use audit_model::{Accepted, Config, Note, Outcome, Step};
use audit_situation::Doing;

/// What a record says of a step.
#[derive(Clone, Copy)]
pub struct Shown<'a> {
    /// The number of the connection.
    pub conn: u64,
    /// The line.
    pub line: &'a [u8],
    /// Whether the line was held back.
    pub held: bool,
    /// The reply, or `None` if there is none yet.
    pub reply: Option<&'a [u8]>,
    /// The number of the load that the line sent.
    pub load: Option<u64>,
    /// The part that took the line's value, if it was accepted.
    pub accepted: Option<Accepted>,
    /// The values that left while the line ran.
    pub notices: &'a [Note],
}

/// What is due: storing an answer under its load's key, delivering it to a connection, running a connection's given-up `LOAD` again,
/// running its held command, or running its lines.
#[derive(Clone, Copy)]
pub enum Duty<'a> {
    /// Storing an outcome under the key of its load, if the load is there.
    Store(Option<&'a [u8]>, &'a Outcome),
    /// Delivering an outcome to the connection of this number.
    Deliver(u64, &'a Outcome),
    /// Running the given-up `LOAD` of the connection of this number again.
    RunAgain(u64),
    /// Running the command that the connection of this number holds back.
    RunHeld(u64),
    /// Running the lines of the connection of this number.
    RunLines(u64),
}

/// Returns what a record says of a step of a connection.
pub fn show(step: &Step) -> Shown<'_>
    ensures { shown_step result ≡ step.now }
{
    let reply = match &step.reply {
        Some(reply) => Some(reply.as_slice()),
        None => None,
    };
    Shown {
        conn: step.conn,
        line: step.line.as_slice(),
        held: step.held,
        reply,
        load: step.load,
        accepted: step.accepted,
        notices: step.notices.as_slice(),
    }
}

/// What a line does, held back or not.
fn do_shown<'a>(config: &Config, shown: Shown<'a>) -> Doing<'a>
    ensures { action_of result ≡ action_of_line config.now (shown_step shown.entry) }
{
    if shown.held {
        Doing::Hold
    } else {
        Doing::Line(read_line(config, shown.line))
    }
}

/// Returns what a step does for what is due, if its connection's `LOAD` began to wait this many times.
pub fn do_due<'a>(
    config: &Config,
    waited: u64,
    duty: Option<Duty<'a>>,
    shown: Shown<'a>,
) -> Doing<'a>
    ensures { action_of result
        ≡ action_in config.now waited (option_map task_of duty.entry) (shown_step shown.entry) }
{
    match duty {
        Some(Duty::Store(key, outcome)) => Doing::Store(key, outcome),
        Some(Duty::Deliver(_, outcome)) => Doing::Deliver(outcome),
        Some(Duty::RunAgain(_)) => do_again(config, waited, shown),
        Some(Duty::RunHeld(_)) => do_shown(config, shown),
        Some(Duty::RunLines(_)) => do_shown(config, shown),
        None => do_shown(config, shown),
    }
}

/// What a given-up `LOAD` does that began to wait this many times.
fn do_again<'a>(config: &Config, waited: u64, shown: Shown<'a>) -> Doing<'a>
    ensures { action_of result ≡ (if nat_le 200 waited then Abandoning
        else action_of_line config.now (shown_step shown.entry)) }
{
    if 200 <= waited {
        Doing::Abandon
    } else {
        do_shown(config, shown)
    }
}

/// Returns whether what is due is due for this connection.
pub fn is_duty_of(conn: u64, duty: Option<Duty<'_>>) -> bool
    ensures { result ≡ is_task_of conn (option_map task_of duty.entry) }
{
    match duty {
        None => false,
        Some(Duty::Store(_, _)) => true,
        Some(Duty::Deliver(c, _)) => c == conn,
        Some(Duty::RunAgain(c)) => c == conn,
        Some(Duty::RunHeld(c)) => c == conn,
        Some(Duty::RunLines(c)) => c == conn,
    }
}

/// Whether what is due may be held back, if a step does this.
fn may_hold(duty: Option<Duty<'_>>, doing: Doing<'_>) -> bool
    ensures { result ≡ may_hold (option_map task_of duty.entry) (action_of doing.entry) }
{
    match duty {
        None => false,
        Some(Duty::Store(_, _)) => false,
        Some(Duty::Deliver(_, _)) => false,
        Some(Duty::RunAgain(_)) => is_hold(doing),
        Some(Duty::RunHeld(_)) => false,
        Some(Duty::RunLines(_)) => is_hold(doing),
    }
}

/// Returns whether a step is held back only if it may be.
pub fn is_held_rightly(duty: Option<Duty<'_>>, held: bool, doing: Doing<'_>) -> bool
    ensures { result
        ≡ (not held || may_hold (option_map task_of duty.entry) (action_of doing.entry)) }
{
    !held || may_hold(duty, doing)
}

/// Returns whether running lines is due.
pub fn is_run_lines(duty: Option<Duty<'_>>) -> bool
    ensures { result ≡ runs_lines (option_map task_of duty.entry) }
{
    match duty {
        None => false,
        Some(Duty::Store(_, _)) => false,
        Some(Duty::Deliver(_, _)) => false,
        Some(Duty::RunAgain(_)) => false,
        Some(Duty::RunHeld(_)) => false,
        Some(Duty::RunLines(_)) => true,
    }
}

/// Returns whether storing an answer is due.
pub fn is_store(duty: Option<Duty<'_>>) -> bool
    ensures { result ≡ is_store_due (option_map task_of duty.entry) }
{
    match duty {
        None => false,
        Some(Duty::Store(_, _)) => true,
        Some(Duty::Deliver(_, _)) => false,
        Some(Duty::RunAgain(_)) => false,
        Some(Duty::RunHeld(_)) => false,
        Some(Duty::RunLines(_)) => false,
    }
}
