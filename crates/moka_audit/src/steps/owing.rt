//! Whether a step's reply is the one that it owes.
ghost use Rattle.std.specs.Prelude.{◌≡◌, IfOk, List, ℕ, Option, false, option_map, Some};
ghost use Rattle.audit_model.specs.Commands.{is_sync};
ghost use Rattle.audit_model.specs.History.{Value, Running};
ghost use Rattle.audit_model.specs.declared.command.Command.TheVariants as says;
ghost use Rattle.audit_model.specs.Replies.{reply_of};
ghost use Rattle.audit_model.specs.Situation.{view_in};
ghost use Rattle.audit_situation.specs.States.{shown_situation};
ghost use Rattle.audit_lines.specs.Request.{said};
ghost use Rattle.audit_model.specs.Steps.{action_by};
ghost use Rattle.audit_situation.specs.Actions.Doings.{action_of};
ghost use Rattle.moka_audit.specs.Steps.Judging.{reply_owed, is_owed_or_refusal, replies_so};

use crate::steps::doing::is_sync;
use crate::steps::keys::keys_listed;
use crate::steps::replies::{
    accepts, fault_text, is_said, ok_or_off, outcome_text, sum_or_error, sum_with, value_or_none,
    value_reply, yes_or_no,
};
use audit_lines::Request;
use audit_model::Config;
use audit_situation::{Doing, State, found, may_refuse};
use std::alloc::{AllocError, Global};

/// The reply to an `ADD`.
fn add_reply(
    alloc: Global,
    config: &Config,
    s: &State,
    key: &[u8],
    number: u64,
) -> Result<Vec<u8>, AllocError>
    ensures { IfOk result (λ r. (ms : Option ℕ) (values : List Value)
        → Some r.items ≡ reply_of config.now (view_in config.now (shown_situation s.now)) values
        (Running (says.Add key.now ms number))) }
{
    if accepts(config) {
        sum_or_error(alloc, sum_with(found(config, s, key), number))
    } else {
        Vec::from_slice(alloc, b"OFF\n")
    }
}

/// The reply to a `LOAD` that runs; none if it begins to wait.
fn load_reply(
    alloc: Global,
    config: &Config,
    s: &State,
    key: &[u8],
) -> Result<Option<Vec<u8>>, AllocError>
    ensures { IfOk result
        (λ r. (values : List Value) → option_map (λ t. t.items) r ≡ reply_of config.now
        (view_in config.now (shown_situation s.now)) values (Running (says.Load key.now))) }
{
    match found(config, s, key) {
        Some(held) => Ok(Some(value_reply(alloc, held.bytes)?)),
        None => Ok(None),
    }
}

/// These bytes as a reply.
fn text(alloc: Global, bytes: &[u8]) -> Result<Option<Vec<u8>>, AllocError>
    ensures { IfOk result (λ r. option_map (λ t. t.items) r ≡ Some bytes.now) }
{
    Ok(Some(Vec::from_slice(alloc, bytes)?))
}

/// The reply that a step which runs its line owes, other than a `SYNC`.
fn owed_by_line(
    alloc: Global,
    config: &Config,
    s: &State,
    request: Request<'_>,
) -> Result<Option<Vec<u8>>, AllocError>
    ensures { IfOk result (λ r. (values : List Value)
        → is_sync (action_by (said request.entry)) ≡ false → option_map (λ t. t.items) r
        ≡ reply_owed config.now (shown_situation s.now) (action_by (said request.entry)) values) }
{
    match request {
        Request::Set { .. } => text(alloc, ok_or_off(config)),
        Request::Get { key } => Ok(Some(value_or_none(alloc, found(config, s, key))?)),
        Request::Has { key } => text(alloc, yes_or_no(found(config, s, key))),
        Request::Load { key } => load_reply(alloc, config, s, key),
        Request::Del { .. } => text(alloc, b"OK\n"),
        Request::Add { key, number, .. } => Ok(Some(add_reply(alloc, config, s, key, number)?)),
        Request::Clear => text(alloc, b"OK\n"),
        Request::DropIf { .. } => text(alloc, b"OK\n"),
        Request::Keys => Ok(Some(keys_listed(alloc, config, s.latest, &s.held)?)),
        Request::Sync => Ok(None),
        Request::Quit => text(alloc, b"OK\n"),
        Request::Fault(error) => text(alloc, fault_text(error)),
    }
}

/// The reply that a step other than a `SYNC` owes.
fn owed(
    alloc: Global,
    config: &Config,
    s: &State,
    doing: Doing<'_>,
) -> Result<Option<Vec<u8>>, AllocError>
    ensures { IfOk result (λ r. (values : List Value)
        → is_sync (action_of doing.entry) ≡ false → option_map (λ t. t.items) r
        ≡ reply_owed config.now (shown_situation s.now) (action_of doing.entry) values) }
{
    match doing {
        Doing::Line(request) => owed_by_line(alloc, config, s, request),
        Doing::Hold => Ok(None),
        Doing::Deliver(outcome) => Ok(Some(outcome_text(alloc, outcome)?)),
        Doing::Abandon => text(alloc, b"ERR abandoned\n"),
        Doing::Store(_, _) => Ok(None),
    }
}

/// Whether a reply is the one that is owed, or the refusal that may be given.
fn is_reply(reply: Option<&[u8]>, owed: Option<&[u8]>, refuses: bool) -> bool
    ensures { result ≡ is_owed_or_refusal (option_map (λ r. r.now) reply.entry)
        (option_map (λ r. r.now) owed.entry) refuses }
{
    is_said(reply, owed) || (refuses && is_said(reply, Some(b"ERR id\n")))
}

/// Returns whether a step other than a `SYNC` has the reply that it owes. Returns an error if there is not enough memory.
pub fn replies_rightly(
    alloc: Global,
    config: &Config,
    s: &State,
    doing: Doing<'_>,
    reply: Option<&[u8]>,
) -> Result<bool, AllocError>
    ensures { IfOk result
        (λ b. (values : List Value) → b ≡ replies_so config.now (shown_situation s.now)
        (action_of doing.entry) (option_map (λ r. r.now) reply.entry) values) }
{
    if is_sync(doing) {
        return Ok(true);
    }
    match owed(alloc, config, s, doing)? {
        Some(owed) => Ok(is_reply(reply, Some(owed.as_slice()), may_refuse(s, doing))),
        None => Ok(is_reply(reply, None, may_refuse(s, doing))),
    }
}
