//! What an event makes due, and which of it is due now.
ghost use Rattle.std.specs.Prelude.{◌≡◌, ◌≤◌, ◌++◌, ◌∷◌, [], IfOk, OnOk, map, length, drop, Some, option_map};
ghost use Rattle.std.specs.List.{flat_map};
ghost use Rattle.audit_model.specs.Places.{due, first_due, left_after, tasks_to_feed, tasks_to_give_up};
ghost use Rattle.audit_model.specs.Situation.{may_run_in};
ghost use Rattle.audit_model.specs.Steps.{Deliver, RunAgain, RunLines};
ghost use Rattle.audit_situation.specs.States.{shown_situation};
ghost use Rattle.moka_audit.specs.Steps.Showing.{task_of, runs_lines};
ghost use Rattle.moka_audit.specs.Records.Due.{is_due_by};

use crate::steps::Duty;
use audit_model::Outcome;
use audit_situation::{State, may_run};
use std::alloc::{AllocError, Global};

/// Returns what a feed makes due: running the command that its connection holds back, and then its lines. Returns an error if there is not
/// enough memory.
pub fn duties_to_feed<'a>(alloc: Global, conn: u64, held: bool) -> Result<Vec<Duty<'a>>, AllocError>
    ensures { IfOk result (λ ds. map task_of ds.items ≡ tasks_to_feed conn held) }
{
    if held {
        Vec::from_slice(alloc, &[Duty::RunHeld(conn), Duty::RunLines(conn)])
    } else {
        Vec::from_slice(alloc, &[Duty::RunLines(conn)])
    }
}

/// Returns what an answer makes due after its own step: delivering it to each connection that waits, and then running their lines. Returns
/// an error if there is not enough memory.
pub fn duties_to_deliver<'a>(
    alloc: Global,
    conns: &[u64],
    outcome: &'a Outcome,
) -> Result<Vec<Duty<'a>>, AllocError>
    ensures { IfOk result (λ ds. map task_of ds.items
        ≡ map (λ conn. Deliver conn outcome.now) conns.now ++ map RunLines conns.now) }
{
    let mut duties = Vec::new(alloc);
    push_deliveries(&mut duties, conns, outcome)?;
    push_lines(&mut duties, conns)?;
    Ok(duties)
}

/// Makes it due to deliver an outcome to each of these.
fn push_deliveries<'a>(
    duties: &mut Vec<Duty<'a>>,
    conns: &[u64],
    outcome: &'a Outcome,
) -> Result<(), AllocError>
    ensures { OnOk result (map task_of duties.new.items ≡ map task_of duties.old.items
        ++ map (λ conn. Deliver conn outcome.now) conns.now) }
{
    for conn in conns {
        duties.push(Duty::Deliver(*conn, outcome))?;
    }
    Ok(())
}

/// Makes it due to run the lines of each of these.
fn push_lines<'a>(duties: &mut Vec<Duty<'a>>, conns: &[u64]) -> Result<(), AllocError>
    ensures { OnOk result
        (map task_of duties.new.items ≡ map task_of duties.old.items ++ map RunLines conns.now) }
{
    for conn in conns {
        duties.push(Duty::RunLines(*conn))?;
    }
    Ok(())
}

/// Returns what a give-up makes due: running each `LOAD` that waits again, followed by its connection's lines. Returns an error if there is
/// not enough memory.
pub fn duties_to_give_up<'a>(alloc: Global, conns: &[u64]) -> Result<Vec<Duty<'a>>, AllocError>
    ensures { IfOk result (λ ds. map task_of ds.items ≡ tasks_to_give_up conns.now) }
{
    let mut duties = Vec::new(alloc);
    for conn in conns {
        push_again(&mut duties, *conn)?;
    }
    Ok(duties)
}

/// Makes it due to run a `LOAD` again, and then its connection's lines.
fn push_again<'a>(duties: &mut Vec<Duty<'a>>, conn: u64) -> Result<(), AllocError>
    ensures { OnOk result (map task_of duties.new.items ≡ map task_of duties.old.items
        ++ (RunAgain conn ∷ RunLines conn ∷ [])) }
{
    duties.extend_from_slice(&[Duty::RunAgain(conn), Duty::RunLines(conn)])
}

/// Whether it is due now.
fn is_due(s: &State, duty: Duty<'_>) -> bool
    ensures { result ≡ is_due_by (may_run_in (shown_situation s.now)) (task_of duty.entry) }
{
    match duty {
        Duty::RunLines(conn) => may_run(s, conn),
        Duty::Store(_, _) => true,
        Duty::Deliver(_, _) => true,
        Duty::RunAgain(_) => true,
        Duty::RunHeld(_) => true,
    }
}

/// Returns the index of the first of these duties that is due now, from an index on.
pub fn due_from(s: &State, duties: &[Duty<'_>], from: usize) -> usize
    requires { from ≤ length duties.now }
    ensures due { map task_of (drop result duties.entry.now)
        ≡ due (may_run_in (shown_situation s.now)) (map task_of (drop from duties.entry.now)) }
    ensures within { result ≤ length duties.entry.now }
{
    for at in from..duties.len() {
        if is_due(s, duties[at]) {
            return at;
        }
    }
    duties.len()
}

/// Returns the duty at an index, or `None` if there is none.
pub fn duty_at<'a>(duties: &[Duty<'a>], at: usize) -> Option<Duty<'a>>
    ensures { option_map task_of result ≡ first_due (map task_of (drop at duties.entry.now)) }
{
    if at < duties.len() {
        Some(duties[at])
    } else {
        None
    }
}

/// Returns the index at which the remaining duties begin after a step for the duty at an index has run. Running lines stays due.
pub fn left_from(duties: &[Duty<'_>], at: usize) -> usize
    requires { at ≤ length duties.now }
    ensures left { map task_of (drop result duties.entry.now)
        ≡ left_after (map task_of (drop at duties.entry.now)) }
    ensures within { result ≤ length duties.entry.now }
{
    if at >= duties.len() {
        return at;
    }
    if stays(duties[at]) { at } else { at + 1 }
}

/// Whether it stays due.
fn stays(duty: Duty<'_>) -> bool
    ensures { result ≡ runs_lines (Some (task_of duty.entry)) }
{
    match duty {
        Duty::RunLines(_) => true,
        Duty::Store(_, _) => false,
        Duty::Deliver(_, _) => false,
        Duty::RunAgain(_) => false,
        Duty::RunHeld(_) => false,
    }
}
