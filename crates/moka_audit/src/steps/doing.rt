//! What a step does.
ghost use Rattle.std.specs.Prelude.{◌≡◌, Option, Some, ℕ, List, option_map, false, codes, if◌then◌else◌};
ghost use Rattle.std.specs.Option.{option_map_or};
ghost use Rattle.audit_model.specs.Bytewise.{same, text_line};
ghost use Rattle.audit_model.specs.Commands.{is_sync, key_used, key_deleted, drops, quits, deed_of, Nothing, Prefixed};
ghost use Rattle.audit_model.specs.Commands.{covering_of as covers_by};
ghost use Rattle.audit_model.specs.Grammar.{reading};
ghost use Rattle.audit_model.specs.History.{Value};
ghost use Rattle.audit_model.specs.Loads.{key_loaded};
ghost use Rattle.audit_model.specs.Notes.{is_silent};
ghost use Rattle.audit_model.specs.Steps.{action_by, may_hold, RunAgain, RunLines};
ghost use Rattle.audit_model.specs.Stream.{is_held};
ghost use Rattle.audit_situation.specs.Notes.Deeds.{covering_by, deed_with};
ghost use Rattle.audit_situation.specs.Actions.Doings.{action_of};
ghost use Rattle.moka_audit.specs.Steps.Doings.{acting};

use audit_lines::Request;
use audit_situation::{Covering, Deed, Doing};

/// The key that a step looks up.
fn key_used<'a>(doing: Doing<'a>) -> Option<&'a [u8]>
    ensures { option_map (λ k. k.now) result ≡ key_used (action_of doing.entry) }
{
    match doing {
        Doing::Line(Request::Get { key }) => Some(key),
        Doing::Line(Request::Load { key }) => Some(key),
        Doing::Line(Request::Add { key, .. }) => Some(key),
        Doing::Line(
            Request::Set { .. } | Request::Has { .. } | Request::Del { .. } | Request::Clear,
        ) => None,
        Doing::Line(Request::DropIf { .. } | Request::Keys | Request::Sync | Request::Quit) => None,
        Doing::Line(Request::Fault(_)) | Doing::Hold | Doing::Deliver(_) | Doing::Abandon => None,
        Doing::Store(_, _) => None,
    }
}

/// The key whose value a step deletes.
fn key_deleted<'a>(doing: Doing<'a>) -> Option<&'a [u8]>
    ensures { option_map (λ k. k.now) result ≡ key_deleted (action_of doing.entry) }
{
    match doing {
        Doing::Line(Request::Del { key }) => Some(key),
        Doing::Line(
            Request::Set { .. } | Request::Get { .. } | Request::Has { .. } | Request::Load { .. },
        ) => None,
        Doing::Line(
            Request::Add { .. } | Request::Clear | Request::DropIf { .. } | Request::Keys,
        ) => None,
        Doing::Line(Request::Sync | Request::Quit | Request::Fault(_)) | Doing::Hold => None,
        Doing::Deliver(_) | Doing::Abandon | Doing::Store(_, _) => None,
    }
}

/// Returns the key of a `LOAD`, or `None` for another step.
pub fn key_loaded<'a>(doing: Doing<'a>) -> Option<&'a [u8]>
    ensures { option_map (λ k. k.now) result ≡ key_loaded (action_of doing.entry) }
{
    match doing {
        Doing::Line(Request::Load { key }) => Some(key),
        Doing::Line(
            Request::Set { .. } | Request::Get { .. } | Request::Has { .. } | Request::Del { .. },
        ) => None,
        Doing::Line(
            Request::Add { .. } | Request::Clear | Request::DropIf { .. } | Request::Keys,
        ) => None,
        Doing::Line(Request::Sync | Request::Quit | Request::Fault(_)) | Doing::Hold => None,
        Doing::Deliver(_) | Doing::Abandon | Doing::Store(_, _) => None,
    }
}

/// Whether a reply is `OK`.
fn is_ok(reply: Option<&[u8]>) -> bool
    ensures { result ≡ option_map_or (λ r. same r (text_line (codes "OK")))
        (option_map (λ r. r.now) reply.entry) false }
{
    match reply {
        Some(reply) => reply == b"OK\n".as_slice(),
        None => false,
    }
}

/// The keys that a step with this reply covers.
fn covering<'a>(doing: Doing<'a>, reply: Option<&[u8]>) -> Covering<'a>
    ensures { (load : Option ℕ) → covering_by result
        ≡ covers_by (acting (action_of doing.entry) (option_map (λ r. r.now) reply.entry) load) }
{
    match doing {
        Doing::Line(Request::Clear) => Covering::Everything,
        Doing::Line(Request::DropIf { prefix }) => covering_prefix(prefix, is_ok(reply)),
        Doing::Line(
            Request::Set { .. } | Request::Get { .. } | Request::Has { .. } | Request::Load { .. },
        ) => { Covering::Nothing }
        Doing::Line(Request::Del { .. } | Request::Add { .. } | Request::Keys | Request::Sync) =>
            Covering::Nothing,
        Doing::Line(Request::Quit | Request::Fault(_)) | Doing::Hold | Doing::Deliver(_) =>
            Covering::Nothing,
        Doing::Abandon | Doing::Store(_, _) => Covering::Nothing,
    }
}

/// What a `DROPIF` covers, which was accepted or not.
fn covering_prefix<'a>(prefix: &'a [u8], accepted: bool) -> Covering<'a>
    ensures { covering_by result ≡ (if accepted then Prefixed prefix.now else Nothing) }
{
    if accepted {
        Covering::Prefixed(prefix)
    } else {
        Covering::Nothing
    }
}

/// Returns whether a step is a `SYNC`.
pub fn is_sync(doing: Doing<'_>) -> bool
    ensures { result ≡ is_sync (action_of doing.entry) }
{
    match doing {
        Doing::Line(Request::Sync) => true,
        Doing::Line(
            Request::Set { .. } | Request::Get { .. } | Request::Has { .. } | Request::Load { .. },
        ) => false,
        Doing::Line(
            Request::Del { .. } | Request::Add { .. } | Request::Clear | Request::DropIf { .. },
        ) => false,
        Doing::Line(Request::Keys | Request::Quit | Request::Fault(_)) | Doing::Hold => false,
        Doing::Deliver(_) | Doing::Abandon | Doing::Store(_, _) => false,
    }
}

/// Returns whether a step is a `QUIT`.
pub fn quits(doing: Doing<'_>) -> bool
    ensures { (reply : Option (List ℕ)) (load : Option ℕ)
        → result ≡ quits (acting (action_of doing.entry) reply load) }
{
    match doing {
        Doing::Line(Request::Quit) => true,
        Doing::Line(
            Request::Set { .. } | Request::Get { .. } | Request::Has { .. } | Request::Load { .. },
        ) => false,
        Doing::Line(
            Request::Del { .. } | Request::Add { .. } | Request::Clear | Request::DropIf { .. },
        ) => false,
        Doing::Line(Request::Keys | Request::Sync | Request::Fault(_)) | Doing::Hold => false,
        Doing::Deliver(_) | Doing::Abandon | Doing::Store(_, _) => false,
    }
}

/// Returns whether a step is held back.
pub fn is_hold(doing: Doing<'_>) -> bool
    ensures held { (reply : Option (List ℕ)) (load : Option ℕ)
        → result ≡ is_held (acting (action_of doing.entry) reply load) }
    ensures again { (conn : ℕ) → result ≡ may_hold (Some (RunAgain conn)) (action_of doing.entry) }
    ensures lines { (conn : ℕ) → result ≡ may_hold (Some (RunLines conn)) (action_of doing.entry) }
{
    match doing {
        Doing::Hold => true,
        Doing::Line(
            Request::Set { .. } | Request::Get { .. } | Request::Has { .. } | Request::Load { .. },
        ) => false,
        Doing::Line(
            Request::Del { .. } | Request::Add { .. } | Request::Clear | Request::DropIf { .. },
        ) => false,
        Doing::Line(Request::Keys | Request::Sync | Request::Fault(_) | Request::Quit) => false,
        Doing::Deliver(_) | Doing::Abandon | Doing::Store(_, _) => false,
    }
}

/// Returns whether a step reports nothing.
pub fn is_silent(doing: Doing<'_>) -> bool
    ensures { result ≡ is_silent (action_of doing.entry) }
{
    match doing {
        Doing::Line(
            Request::Has { .. } | Request::Keys | Request::Clear | Request::DropIf { .. },
        ) => true,
        Doing::Line(Request::Quit) | Doing::Hold | Doing::Abandon => true,
        Doing::Line(
            Request::Set { .. } | Request::Get { .. } | Request::Load { .. } | Request::Del { .. },
        ) => false,
        Doing::Line(Request::Add { .. } | Request::Sync | Request::Fault(_)) | Doing::Deliver(_) =>
            false,
        Doing::Store(_, _) => false,
    }
}

/// Returns whether a step with this reply is a `DROPIF` that was accepted.
pub fn is_drop(doing: Doing<'_>, reply: Option<&[u8]>) -> bool
    ensures { (load : Option ℕ) → result
        ≡ drops (acting (action_of doing.entry) (option_map (λ r. r.now) reply.entry) load) }
{
    match doing {
        Doing::Line(Request::DropIf { .. }) => is_ok(reply),
        Doing::Line(
            Request::Set { .. } | Request::Get { .. } | Request::Has { .. } | Request::Load { .. },
        ) => false,
        Doing::Line(Request::Del { .. } | Request::Add { .. } | Request::Clear | Request::Keys) =>
            false,
        Doing::Line(Request::Sync | Request::Quit | Request::Fault(_)) | Doing::Hold => false,
        Doing::Deliver(_) | Doing::Abandon | Doing::Store(_, _) => false,
    }
}

/// Returns what a step with this reply does to values.
pub fn deed_of<'a>(doing: Doing<'a>, reply: Option<&[u8]>) -> Deed<'a>
    ensures { (load : Option ℕ) (value : Option Value) → deed_with result value ≡ record
        (deed_of (acting (action_of doing.entry) (option_map (λ r. r.now) reply.entry) load))
        { value = value } }
{
    Deed {
        uses: key_used(doing),
        deletes: key_deleted(doing),
        covers: covering(doing, reply),
        syncs: is_sync(doing),
    }
}
