//! Judging and performing one step.
ghost use Rattle.std.specs.Prelude.{◌≡◌, ◌<◌, ◌&&◌, ◌||◌, not, IfOk, OnOk, IfSome, IsTrue, Option, Some, None, true, option_map};
ghost use Rattle.std.specs.Option.{option_eq};
ghost use Rattle.audit_model.specs.Bytewise.{same, is_empty};
ghost use Rattle.audit_model.specs.Commands.{deed_of, drops, is_sync};
ghost use Rattle.audit_model.specs.Follows.{line_in};
ghost use Rattle.audit_model.specs.Notes.{is_silent, is_within};
ghost use Rattle.audit_model.specs.Situation.{connection_in};
ghost use Rattle.audit_model.specs.Steps.{Task, RunHeld};
ghost use Rattle.audit_model.specs.View.{View};
ghost use Rattle.audit_situation.specs.Notes.After.{IsJustAccepted};
ghost use Rattle.audit_situation.specs.Held.Weights.{values_of};
ghost use Rattle.audit_situation.specs.Held.Known.{with_value};
ghost use Rattle.audit_situation.specs.States.{shown_situation, have_numbers_apart};
ghost use Rattle.audit_situation.specs.Actions.Doings.{action_of};
ghost use Rattle.moka_audit.specs.Steps.Doings.{passed_on};
ghost use Rattle.moka_audit.specs.Steps.Judging.{placed_by, placed_as_shown, is_fit, ends_rightly, agrees_and_ends, with_values_after, after_placed, syncs_so, Judges, JudgesStep};
ghost use Rattle.moka_audit.specs.Steps.Showing.{shown_step, task_of};

use crate::steps::accepting::{accept, admit};
use crate::steps::doing::{deed_of, is_drop, is_hold, is_silent, is_sync, key_loaded, quits};
use crate::steps::owing::replies_rightly;
use crate::steps::replies::{counts_of, is_said};
use crate::steps::shown::{
    Duty, Shown, do_due, is_duty_of, is_held_rightly, is_run_lines, is_store,
};
use audit_lines::Request;
use audit_model::{Config, Note};
use audit_situation::{
    Doing, Held, Holding, Link, Moved, Moving, PARTS, Parts, State, do_deed, find_link, first_line,
    is_over, limit_of, loads_rightly, pass, waited,
};
use std::alloc::{AllocError, Global};

/// The line of a connection that is due.
fn due_line(link: &Link) -> Option<&[u8]>
    ensures { option_map (λ l. l.now) result ≡ line_in (Some (RunHeld 0)) (Some link.now) }
{
    if link.is_ready() {
        first_line(link.unread())
    } else {
        link.kept_line()
    }
}

/// Whether a line is the one of a connection that is due.
fn is_due_of(s: &State, conn: u64, line: &[u8]) -> bool
    ensures { result ≡ option_eq same
        (line_in (Some (RunHeld 0)) (connection_in conn (shown_situation s.now))) (Some line.now) }
{
    match find_link(&s.connections, conn) {
        Some(link) => is_said(due_line(link), Some(line)),
        None => false,
    }
}

/// Whether a step has the line that is due.
fn has_right_line(s: &State, duty: Option<Duty<'_>>, conn: u64, line: &[u8]) -> bool
    ensures { result ≡ option_eq same
        (line_in (option_map task_of duty.entry) (connection_in conn (shown_situation s.now)))
        (Some line.now) }
{
    match duty {
        Some(Duty::Store(_, _)) => line == b"".as_slice(),
        Some(Duty::Deliver(_, _)) => is_due_of(s, conn, line),
        Some(Duty::RunAgain(_)) => is_due_of(s, conn, line),
        Some(Duty::RunHeld(_)) => is_due_of(s, conn, line),
        Some(Duty::RunLines(_)) => is_due_of(s, conn, line),
        None => is_due_of(s, conn, line),
    }
}

/// Whether a step has no notes if it reports nothing.
fn is_quiet(doing: Doing<'_>, notices: &[Note]) -> bool
    ensures { result ≡ (not (is_silent (action_of doing.entry)) || is_empty notices.now) }
{
    !is_silent(doing) || notices.is_empty()
}

/// Whether a step is right in everything that is judged before values change.
fn is_fit(
    alloc: Global,
    config: &Config,
    s: &State,
    duty: Option<Duty<'_>>,
    shown: Shown<'_>,
    doing: Doing<'_>,
) -> Result<bool, AllocError>
    ensures { IfOk result (λ b. b ≡ is_fit config.now (placed_by config.now (shown_situation s.now)
        (option_map task_of duty.entry) (action_of doing.entry) (shown_step shown.entry))) }
{
    let turn = is_duty_of(shown.conn, duty);
    let held = is_held_rightly(duty, shown.held, doing);
    let line = has_right_line(s, duty, shown.conn, shown.line);
    let reply = replies_rightly(alloc, config, s, doing, shown.reply)?;
    let load = loads_rightly(config, s, doing, shown.load);
    let quiet = is_quiet(doing, shown.notices);
    Ok(are_all(turn, held, line, reply, load, quiet))
}

/// Whether all are true.
fn are_all(turn: bool, held: bool, line: bool, reply: bool, load: bool, quiet: bool) -> bool
    ensures { result ≡ (turn && held && line && reply && load && quiet) }
{
    turn && held && line && reply && load && quiet
}

/// Whether each part is within its share.
fn are_within(config: &Config, held: &Holding) -> bool
    ensures { result ≡ is_within config.now (values_of held.now) }
{
    let limit = limit_of(config);
    let _number = held.len();
    for part in 0..PARTS {
        if is_over(config, limit, held, part) {
            return false;
        }
    }
    true
}

/// Whether a `SYNC` that leaves these values has the reply that it owes, and each part is within its share.
fn is_synced(
    alloc: Global,
    config: &Config,
    held: &Holding,
    doing: Doing<'_>,
    reply: Option<&[u8]>,
) -> Result<bool, AllocError>
    ensures { IfOk result (λ b. (seen : View) → b ≡ syncs_so config.now seen (action_of doing.entry)
        (option_map (λ r. r.now) reply.entry) (values_of held.now)) }
{
    match doing {
        Doing::Line(Request::Sync) => {
            let counts = counts_of(alloc, held)?;
            let within = are_within(config, held);
            Ok(is_said(reply, Some(counts.as_slice())) && within)
        }
        Doing::Line(
            Request::Set { .. } | Request::Get { .. } | Request::Has { .. } | Request::Load { .. },
        ) => Ok(true),
        Doing::Line(
            Request::Del { .. } | Request::Add { .. } | Request::Clear | Request::DropIf { .. },
        ) => Ok(true),
        Doing::Line(Request::Keys | Request::Quit | Request::Fault(_)) | Doing::Hold => Ok(true),
        Doing::Deliver(_) | Doing::Abandon | Doing::Store(_, _) => Ok(true),
    }
}

/// Judges a step's notes, and does what it does to values.
fn do_values(
    alloc: Global,
    config: &Config,
    s: &mut State,
    shown: Shown<'_>,
    doing: Doing<'_>,
    newcomer: Option<Held>,
) -> Result<bool, AllocError>
    requires new { IfSome newcomer (IsJustAccepted s.old.latest) }
    requires small { IfSome newcomer (λ h. h.value.part < 256) }
    ensures right { IfOk result (λ b. (task : Option Task) → b ≡ ends_rightly config.now
        (placed_as_shown config.now s.old task doing.entry shown.entry newcomer)) }
    ensures left { IfOk result (λ b. b ≡ true
        → shown_situation s.new ≡ with_values_after config.now (shown_situation s.old)
        (placed_as_shown config.now s.old None doing.entry shown.entry newcomer).effect) }
{
    let deed = deed_of(doing, shown.reply);
    if !do_deed(
        alloc,
        config,
        s.latest,
        &mut s.held,
        &deed,
        newcomer,
        shown.notices,
    )? {
        return Ok(false);
    }
    if !is_synced(alloc, config, &s.held, doing, shown.reply)? {
        return Ok(false);
    }
    let drops = is_drop(doing, shown.reply);
    s.dropped |= drops;
    Ok(true)
}

/// Does what a step does to its connection and to the loads.
fn pass_step(
    alloc: Global,
    s: &mut State,
    duty: Option<Duty<'_>>,
    shown: Shown<'_>,
    doing: Doing<'_>,
) -> Result<(), AllocError>
    requires { IsTrue (have_numbers_apart s.old.connections) }
    ensures { OnOk result (shown_situation s.new ≡ passed_on (option_map task_of duty.entry)
        (action_of doing.entry) (shown_step shown.entry) (shown_situation s.old)) }
{
    if is_store(duty) {
        return Ok(());
    }
    let moving = Moving {
        reads: is_run_lines(duty),
        holds: is_hold(doing),
        replies: shown.reply.is_some(),
        line: shown.line,
    };
    let moved = Moved {
        conn: shown.conn,
        moving,
        quits: quits(doing),
        key: key_loaded(doing),
        load: shown.load,
    };
    pass(alloc, s, moved)
}

/// Judges a step's notes, and does what it does.
fn finish(
    alloc: Global,
    config: &Config,
    s: &mut State,
    duty: Option<Duty<'_>>,
    shown: Shown<'_>,
    doing: Doing<'_>,
    newcomer: Option<Held>,
) -> Result<bool, AllocError>
    requires apart { IsTrue (have_numbers_apart s.old.connections) }
    requires new { IfSome newcomer (IsJustAccepted s.old.latest) }
    requires small { IfSome newcomer (λ h. h.value.part < 256) }
    ensures right { IfOk result (λ b. b ≡ ends_rightly config.now (placed_as_shown config.now s.old
        (option_map task_of duty.entry) doing.entry shown.entry newcomer)) }
    ensures left { IfOk result (λ b. b ≡ true
        → shown_situation s.new ≡ after_placed config.now (shown_situation s.old) (placed_as_shown
        config.now s.old (option_map task_of duty.entry) doing.entry shown.entry newcomer)) }
{
    if !do_values(alloc, config, s, shown, doing, newcomer)? {
        return Ok(false);
    }
    pass_step(alloc, s, duty, shown, doing)?;
    Ok(true)
}

/// Keeps the part of what a step accepts, judges its notes, and does what it does.
fn judge_accepted(
    alloc: Global,
    config: &Config,
    s: &mut State,
    parts: &mut Parts,
    duty: Option<Duty<'_>>,
    shown: Shown<'_>,
    doing: Doing<'_>,
    newcomer: Option<Held>,
) -> Result<bool, AllocError>
    requires apart { IsTrue (have_numbers_apart s.old.connections) }
    requires new { IfSome newcomer (IsJustAccepted s.old.latest) }
    requires small { IfSome newcomer (λ h. h.value.part < 256) }
    ensures right { IfOk result (λ b. b ≡ agrees_and_ends config.now parts.old
        (placed_as_shown config.now s.old (option_map task_of duty.entry)
        doing.entry shown.entry newcomer)) }
    ensures left { IfOk result (λ b. b ≡ true
        → shown_situation s.new ≡ after_placed config.now (shown_situation s.old) (placed_as_shown
        config.now s.old (option_map task_of duty.entry) doing.entry shown.entry newcomer)) }
    ensures kept { IfOk result
        (λ b. b ≡ true → parts.new ≡ with_value parts.old (option_map (λ h. h.value) newcomer)) }
{
    if !admit(parts, newcomer.as_ref())? {
        return Ok(false);
    }
    finish(alloc, config, s, duty, shown, doing, newcomer)
}

/// Judges a step that does this, and does it.
fn judge_doing(
    alloc: Global,
    config: &Config,
    s: &mut State,
    parts: &mut Parts,
    duty: Option<Duty<'_>>,
    shown: Shown<'_>,
    doing: Doing<'_>,
) -> Result<bool, AllocError>
    requires { IsTrue (have_numbers_apart s.old.connections) }
    ensures { IfOk result (λ b. Judges config.now s.old parts.old
        (placed_by config.now (shown_situation s.old) (option_map task_of duty.entry)
        (action_of doing.entry) (shown_step shown.entry)) b s.new parts.new) }
{
    if !is_fit(alloc, config, s, duty, shown, doing)? {
        return Ok(false);
    }
    match accept(alloc, config, s, doing, shown.accepted)? {
        Some(newcomer) => { judge_accepted(alloc, config, s, parts, duty, shown, doing, newcomer) }
        None => Ok(false),
    }
}

/// Judges a step by what is due, and does to the situation and to the parts of keys what the step does. Returns `false` if the step is
/// wrong, or if the key of its value has another part: situation and parts then mean nothing. Returns an error if there is not enough
/// memory.
pub fn judge(
    alloc: Global,
    config: &Config,
    s: &mut State,
    parts: &mut Parts,
    duty: Option<Duty<'_>>,
    shown: Shown<'_>,
) -> Result<bool, AllocError>
    requires { IsTrue (have_numbers_apart s.old.connections) }
    ensures { IfOk result (λ b. JudgesStep config.now s.old parts.old
        (option_map task_of duty.entry) (shown_step shown.entry) b s.new parts.new) }
{
    let waited = waited(s, shown.conn);
    let doing = do_due(config, waited, duty, shown);
    judge_doing(alloc, config, s, parts, duty, shown, doing)
}
