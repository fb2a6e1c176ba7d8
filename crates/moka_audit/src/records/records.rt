//! Records judged one after another.
ghost use Rattle.std.specs.Prelude.{◌≡◌, IfOk, IsTrue, true, map, option_map, Some, [], ◌∷◌};
ghost use Rattle.audit_model.specs.Follows.{after_event};
ghost use Rattle.audit_model.specs.Steps.{Store};
ghost use Rattle.moka_audit.specs.Steps.Judging.{JudgesStep};
ghost use Rattle.audit_model.specs.Obeys.{is_numbered};
ghost use Rattle.audit_model.specs.Situation.{pending_key, waiting_in, empty_situation};
ghost use Rattle.audit_model.specs.declared.event.Event.TheVariants as event;
ghost use Rattle.audit_model.specs.Belongs.{first_break};
ghost use Rattle.audit_situation.specs.States.{shown_situation};
ghost use Rattle.moka_audit.specs.Steps.Showing.{task_of, shown_step};
ghost use Rattle.moka_audit.specs.Records.Auditing.{Reaches, Audits, AuditsEvent, audited_steps, audited_event, audited_record, audited_from, step_of_answer, steps_with_own};
ghost use Rattle.moka_audit.specs.Records.Tidy.{is_tidy};

use crate::records::admitting::is_taken;
use crate::records::duties::{
    due_from, duties_to_deliver, duties_to_feed, duties_to_give_up, duty_at, left_from,
};
use crate::steps::{Duty, Shown, judge, show};
use audit_laws::breaks_agree;
use audit_model::{Bytes, Config, Event, Instant, Outcome, Record, Step, Transcript};
use audit_situation::{Parts, State, begin, close, feed, find_pending, is_holding, open, settle};
use std::alloc::{AllocError, Global};

/// Judges the steps for which these are due, and does what they do. If one is wrong, or more is due after the last, returns `false`, and
/// situation and parts mean nothing.
fn judge_steps(
    alloc: Global,
    config: &Config,
    s: &mut State,
    parts: &mut Parts,
    duties: &[Duty<'_>],
    steps: &[Step],
) -> Result<bool, AllocError>
    requires { IsTrue (is_tidy (shown_situation s.old)) }
    ensures reaches { IfOk result (λ b. Reaches b (shown_situation s.new) parts.new (audited_steps
        config.now parts.old (shown_situation s.old) (map task_of duties.entry.now) steps.now)) }
    ensures tidy { IfOk result (λ b. b ≡ true → is_tidy (shown_situation s.new) ≡ true) }
{
    let mut at = 0;
    for step in steps {
        at = due_from(s, duties, at);
        let duty = duty_at(duties, at);
        if !judge(alloc, config, s, parts, duty, show(step))? {
            return Ok(false);
        }
        at = left_from(duties, at);
    }
    Ok(due_from(s, duties, at) >= duties.len())
}

/// Opens a connection, and judges the steps that follow: there may be none.
fn judge_open(
    alloc: Global,
    config: &Config,
    s: &mut State,
    parts: &mut Parts,
    conn: u64,
    steps: &[Step],
) -> Result<bool, AllocError>
    requires tidy { IsTrue (is_tidy (shown_situation s.old)) }
    requires numbered { is_numbered s.old.opened (event.Open conn) ≡ true }
    ensures reaches { IfOk result
        (λ b. Reaches b (shown_situation s.new) parts.new (audited_steps config.now parts.old
        (after_event (event.Open conn) (shown_situation s.old)) [] steps.now)) }
    ensures tidy { IfOk result (λ b. b ≡ true → is_tidy (shown_situation s.new) ≡ true) }
{
    open(alloc, s, conn)?;
    judge_steps(alloc, config, s, parts, &[], steps)
}

/// Closes a connection, and judges the steps that follow: there may be none.
fn judge_close(
    alloc: Global,
    config: &Config,
    s: &mut State,
    parts: &mut Parts,
    conn: u64,
    steps: &[Step],
) -> Result<bool, AllocError>
    requires tidy { IsTrue (is_tidy (shown_situation s.old)) }
    ensures reaches { IfOk result
        (λ b. Reaches b (shown_situation s.new) parts.new (audited_steps config.now parts.old
        (after_event (event.Close conn) (shown_situation s.old)) [] steps.now)) }
    ensures tidy { IfOk result (λ b. b ≡ true → is_tidy (shown_situation s.new) ≡ true) }
{
    close(s, conn);
    judge_steps(alloc, config, s, parts, &[], steps)
}

/// Feeds a connection, and judges the steps that follow.
fn judge_feed(
    alloc: Global,
    config: &Config,
    s: &mut State,
    parts: &mut Parts,
    conn: u64,
    piece: &Bytes,
    moment: Instant,
    steps: &[Step],
) -> Result<bool, AllocError>
    requires tidy { IsTrue (is_tidy (shown_situation s.old)) }
    ensures reaches { IfOk result (λ b. AuditsEvent config.now s.old parts.old
        (event.Feed conn piece.now moment) steps.now b s.new parts.new) }
    ensures tidy { IfOk result (λ b. b ≡ true → is_tidy (shown_situation s.new) ≡ true) }
{
    let duties = duties_to_feed(alloc, conn, is_holding(s, conn))?;
    s.latest = moment.nanos.max(s.latest);
    feed(s, conn, piece.as_slice())?;
    judge_steps(alloc, config, s, parts, duties.as_slice(), steps)
}

/// The connections that wait for a load.
fn waiting_of(alloc: Global, s: &State, load: u64) -> Result<Vec<u64>, AllocError>
    ensures { IfOk result (λ conns. conns.items ≡ waiting_in load (shown_situation s.now)) }
{
    match find_pending(&s.pending, load) {
        Some(pending) => pending.waiting(alloc),
        None => Ok(Vec::new(alloc)),
    }
}

/// The key of a load.
fn key_of(alloc: Global, s: &State, load: u64) -> Result<Option<Vec<u8>>, AllocError>
    ensures { IfOk result
        (λ key. option_map (λ k. k.items) key ≡ pending_key load (shown_situation s.now)) }
{
    match find_pending(&s.pending, load) {
        Some(pending) => Ok(Some(Vec::from_slice(alloc, pending.key())?)),
        None => Ok(None),
    }
}

/// Gives a load up, and judges the steps that follow.
fn judge_give_up(
    alloc: Global,
    config: &Config,
    s: &mut State,
    parts: &mut Parts,
    load: u64,
    moment: Instant,
    steps: &[Step],
) -> Result<bool, AllocError>
    requires tidy { IsTrue (is_tidy (shown_situation s.old)) }
    ensures reaches { IfOk result (λ b. AuditsEvent config.now s.old parts.old
        (event.GiveUp load moment) steps.now b s.new parts.new) }
    ensures tidy { IfOk result (λ b. b ≡ true → is_tidy (shown_situation s.new) ≡ true) }
{
    let conns = waiting_of(alloc, s, load)?;
    let duties = duties_to_give_up(alloc, conns.as_slice())?;
    settle(s, load, moment.nanos);
    judge_steps(alloc, config, s, parts, duties.as_slice(), steps)
}

/// What a record says of an answer's own step.
fn show_own(entry: &Record) -> Shown<'_>
    ensures { shown_step result ≡ step_of_answer entry.now }
{
    Shown {
        conn: 0,
        line: b"",
        held: false,
        reply: None,
        load: None,
        accepted: entry.own,
        notices: entry.notices.as_slice(),
    }
}

/// Answers a load: judges the answer's own step and the steps that follow.
fn judge_answer(
    alloc: Global,
    config: &Config,
    s: &mut State,
    parts: &mut Parts,
    load: u64,
    outcome: &Outcome,
    moment: Instant,
    entry: &Record,
) -> Result<bool, AllocError>
    requires tidy { IsTrue (is_tidy (shown_situation s.old)) }
    ensures reaches { IfOk result (λ b. AuditsEvent config.now s.old parts.old
        (event.Answer load outcome.now moment) (steps_with_own entry.now) b s.new parts.new) }
    ensures tidy { IfOk result (λ b. b ≡ true → is_tidy (shown_situation s.new) ≡ true) }
{
    let conns = waiting_of(alloc, s, load)?;
    let key = key_of(alloc, s, load)?;
    let duties = duties_to_deliver(alloc, conns.as_slice(), outcome)?;
    settle(s, load, moment.nanos);
    judge_stored(
        alloc,
        config,
        s,
        parts,
        key.as_ref(),
        outcome,
        duties.as_slice(),
        entry,
    )
}

/// Judges an answer's own step, and the steps that follow, for which these are due.
fn judge_stored(
    alloc: Global,
    config: &Config,
    s: &mut State,
    parts: &mut Parts,
    key: Option<&Vec<u8>>,
    outcome: &Outcome,
    duties: &[Duty<'_>],
    entry: &Record,
) -> Result<bool, AllocError>
    requires tidy { IsTrue (is_tidy (shown_situation s.old)) }
    ensures reaches { IfOk result (λ b. Audits config.now s.old parts.old
        (Store (option_map (λ k. k.now.items) key.entry) outcome.now ∷ map task_of duties.entry.now)
        (steps_with_own entry.now) b s.new parts.new) }
    ensures tidy { IfOk result (λ b. b ≡ true → is_tidy (shown_situation s.new) ≡ true) }
{
    if !store(alloc, config, s, parts, key, outcome, entry)? {
        return Ok(false);
    }
    judge_steps(alloc, config, s, parts, duties, entry.steps.as_slice())
}

/// Judges an answer's own step.
fn store(
    alloc: Global,
    config: &Config,
    s: &mut State,
    parts: &mut Parts,
    key: Option<&Vec<u8>>,
    outcome: &Outcome,
    entry: &Record,
) -> Result<bool, AllocError>
    requires { IsTrue (is_tidy (shown_situation s.old)) }
    ensures judged { IfOk result (λ b. JudgesStep config.now s.old parts.old
        (Some (Store (option_map (λ k. k.now.items) key.entry) outcome.now))
        (step_of_answer entry.now) b s.new parts.new) }
    ensures tidy { IfOk result (λ b. b ≡ true → is_tidy (shown_situation s.new) ≡ true) }
{
    let shown = show_own(entry);
    match key {
        Some(key) => {
            let duty = Duty::Store(Some(key.as_slice()), outcome);
            judge(alloc, config, s, parts, Some(duty), shown)
        }
        None => judge(
            alloc,
            config,
            s,
            parts,
            Some(Duty::Store(None, outcome)),
            shown,
        ),
    }
}

/// Judges the steps of a record, and does what event and steps do.
fn judge_event(
    alloc: Global,
    config: &Config,
    s: &mut State,
    parts: &mut Parts,
    entry: &Record,
) -> Result<bool, AllocError>
    requires tidy { IsTrue (is_tidy (shown_situation s.old)) }
    requires numbered { is_numbered s.old.opened entry.now.event ≡ true }
    ensures reaches { IfOk result (λ b. Reaches b (shown_situation s.new) parts.new
        (audited_event config.now parts.old (shown_situation s.old) entry.now)) }
    ensures tidy { IfOk result (λ b. b ≡ true → is_tidy (shown_situation s.new) ≡ true) }
{
    let steps = entry.steps.as_slice();
    match &entry.event {
        Event::Open { conn } => judge_open(alloc, config, s, parts, *conn, steps),
        Event::Close { conn } => judge_close(alloc, config, s, parts, *conn, steps),
        Event::Feed {
            conn,
            piece,
            moment,
        } => judge_feed(alloc, config, s, parts, *conn, piece, *moment, steps),
        Event::Answer {
            load,
            outcome,
            moment,
        } => judge_answer(alloc, config, s, parts, *load, outcome, *moment, entry),
        Event::GiveUp { load, moment } => {
            judge_give_up(alloc, config, s, parts, *load, *moment, steps)
        }
    }
}

/// Judges a record, and does what it does. If it breaks a rule, returns `false`, and situation and parts mean nothing.
fn judge_record(
    alloc: Global,
    config: &Config,
    s: &mut State,
    parts: &mut Parts,
    entry: &Record,
) -> Result<bool, AllocError>
    requires { IsTrue (is_tidy (shown_situation s.old)) }
    ensures reaches { IfOk result (λ b. Reaches b (shown_situation s.new) parts.new
        (audited_record config.now parts.old (shown_situation s.old) entry.now)) }
    ensures tidy { IfOk result (λ b. b ≡ true → is_tidy (shown_situation s.new) ≡ true) }
{
    if !is_taken(config, s, entry) {
        return Ok(false);
    }
    judge_event(alloc, config, s, parts, entry)
}

/// The number of the first record that breaks a rule, by situations.
fn audited(
    alloc: Global,
    config: &Config,
    made: u64,
    records: &[Record],
) -> Result<Option<u64>, AllocError>
    ensures { IfOk result
        (λ n. n ≡ audited_from config.now [] (empty_situation made) 0 records.now) }
{
    let mut s = begin(alloc, made)?;
    audited_from(alloc, config, &mut s, records)
}

/// The same from a situation on.
fn audited_from(
    alloc: Global,
    config: &Config,
    s: &mut State,
    records: &[Record],
) -> Result<Option<u64>, AllocError>
    requires { IsTrue (is_tidy (shown_situation s.old)) }
    ensures { IfOk result
        (λ n. n ≡ audited_from config.now [] (shown_situation s.old) 0 records.now) }
{
    let mut parts = Parts::new(alloc);
    audited_on(alloc, config, s, &mut parts, records)
}

/// The same from a situation and parts on.
fn audited_on(
    alloc: Global,
    config: &Config,
    s: &mut State,
    parts: &mut Parts,
    records: &[Record],
) -> Result<Option<u64>, AllocError>
    requires { IsTrue (is_tidy (shown_situation s.old)) }
    ensures { IfOk result
        (λ n. n ≡ audited_from config.now parts.old (shown_situation s.old) 0 records.now) }
{
    for (i, entry) in records.iter().enumerate() {
        if !judge_record(alloc, config, s, parts, entry)? {
            return Ok(Some(i as u64 + 1));
        }
    }
    Ok(None)
}

/// Returns the number, counted from 1, of the first record that breaks a rule, or `None` if no record does. Returns an error if there is
/// not enough memory.
pub fn find_break(
    alloc: Global,
    config: &Config,
    transcript: &Transcript,
) -> Result<Option<u64>, AllocError>
    ensures { IfOk result (λ n. n ≡ first_break config.now transcript.now) }
{
    breaks_agree();
    audited(
        alloc,
        config,
        transcript.made.nanos,
        transcript.records.as_slice(),
    )
}
