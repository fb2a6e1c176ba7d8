//! The value that a step accepts, and its part.
ghost use Rattle.std.specs.Prelude.{◌≡◌, ◌<◌, ◌++◌, ◌∷◌, [], IfOk, IfSome, ℕ, None, true, option_map, Some};
ghost use Rattle.audit_model.specs.Changes.{newly_held};
ghost use Rattle.audit_model.specs.History.{Running, weight_of};
ghost use Rattle.audit_model.specs.Replies.{offered, offer_of, value_with};
ghost use Rattle.audit_model.specs.Situation.{view_in};
ghost use Rattle.audit_model.specs.Values.{own_deadline_from, after_ms};
ghost use Rattle.audit_model.specs.declared.command.Command.TheVariants as says;
ghost use Rattle.audit_situation.specs.Notes.After.{IsJustAccepted};
ghost use Rattle.audit_situation.specs.States.{shown_situation};
ghost use Rattle.audit_model.specs.declared.config.Config.{Config};
ghost use Rattle.audit_situation.specs.Actions.Doings.{action_of};
ghost use Rattle.audit_situation.specs.Held.Known.{agrees, agrees_with, with_part, with_value};
ghost use Rattle.moka_audit.specs.Steps.Judging.{offer_from, AcceptsOffer, Accepts};

use crate::steps::replies::{accepts, digits_of, sum_with};
use audit_lines::Request;
use audit_model::{Accepted, Bytes, Config, Outcome, Seq, Weight};
use audit_situation::{Doing, Held, Parts, State, found, part_count};
use std::alloc::{AllocError, Global};

/// A key with the value that it is to hold, and its milliseconds to live.
#[derive(Drop)]
pub struct Proposal {
    /// The key.
    pub key: Bytes,
    /// The value that the key is to hold.
    pub bytes: Bytes,
    /// For how many milliseconds the value lives, or `None` without a limit of its own.
    pub ms: Option<u64>,
}

/// What a step would accept, if values are accepted.
fn offered(
    alloc: Global,
    config: &Config,
    s: &State,
    doing: Doing<'_>,
) -> Result<Option<Proposal>, AllocError>
    ensures { IfOk result (λ o. option_map offer_from o
        ≡ offered (view_in config.now (shown_situation s.now)) (action_of doing.entry)) }
{
    match doing {
        Doing::Line(
            Request::Set {
                key,
                deadline,
                value,
            },
        ) => offer_some(alloc, key, value, deadline),
        Doing::Line(
            Request::Add {
                key,
                deadline,
                number,
            },
        ) => offered_sum(alloc, config, s, key, deadline, number),
        Doing::Store(Some(key), Outcome::Value(bytes, ms)) => {
            offer_some(alloc, key, bytes.as_slice(), *ms)
        }
        Doing::Store(Some(_), Outcome::None) => Ok(None),
        Doing::Store(Some(_), Outcome::Fault(_)) => Ok(None),
        Doing::Store(None, _) => Ok(None),
        Doing::Line(
            Request::Get { .. } | Request::Has { .. } | Request::Load { .. } | Request::Del { .. },
        ) => Ok(None),
        Doing::Line(Request::Clear | Request::DropIf { .. } | Request::Keys | Request::Sync) => Ok(
            None,
        ),
        Doing::Line(Request::Quit | Request::Fault(_)) | Doing::Hold | Doing::Deliver(_) => Ok(
            None,
        ),
        Doing::Abandon => Ok(None),
    }
}

/// An offer of these bytes.
fn offer(alloc: Global, key: &[u8], bytes: &[u8], ms: Option<u64>) -> Result<Proposal, AllocError>
    ensures { IfOk result (λ o. o ≡ record { key = key.now; bytes = bytes.now; ms = ms }) }
{
    let key = Seq::from_vec(Vec::from_slice(alloc, key)?);
    let bytes = Seq::from_vec(Vec::from_slice(alloc, bytes)?);
    Ok(Proposal { key, bytes, ms })
}

/// The same for an optional value.
fn offer_some(
    alloc: Global,
    key: &[u8],
    bytes: &[u8],
    ms: Option<u64>,
) -> Result<Option<Proposal>, AllocError>
    ensures { IfOk result (λ o. option_map offer_from o
        ≡ Some (record { key = key.now; bytes = bytes.now; ms = ms })) }
{
    Ok(Some(offer(alloc, key, bytes, ms)?))
}

/// What an `ADD` would accept.
fn offered_sum(
    alloc: Global,
    config: &Config,
    s: &State,
    key: &[u8],
    ms: Option<u64>,
    number: u64,
) -> Result<Option<Proposal>, AllocError>
    ensures { IfOk result (λ o. option_map offer_from o ≡ offered
        (view_in config.now (shown_situation s.now)) (Running (says.Add key.now ms number))) }
{
    match sum_with(found(config, s, key), number) {
        Some(sum) => {
            let digits = digits_of(alloc, sum)?;
            offer_some(alloc, key, digits.as_slice(), ms)
        }
        None => Ok(None),
    }
}

/// What a step offers.
fn offer_of(
    alloc: Global,
    config: &Config,
    s: &State,
    doing: Doing<'_>,
) -> Result<Option<Proposal>, AllocError>
    ensures { IfOk result (λ o. option_map offer_from o ≡ offer_of config.now
        (view_in config.now (shown_situation s.now)) (action_of doing.entry)) }
{
    if accepts(config) {
        offered(alloc, config, s, doing)
    } else {
        Ok(None)
    }
}

/// What a value of these bytes weighs.
fn weight_of(weight: Weight, bytes: &[u8]) -> u64
    ensures { result ≡ weight_of weight bytes.now }
{
    match weight {
        Weight::One => 1,
        Weight::Bytes => bytes.len() as u64,
    }
}

/// The own deadline of a value that is accepted at a moment with this many milliseconds to live, in nanoseconds.
fn own_deadline(now: u64, ms: Option<u64>) -> Result<Option<u64>, AllocError>
    ensures { IfOk result (λ o. o ≡ own_deadline_from now ms) }
{
    match ms {
        Some(ms) => match deadline_after(now, ms) {
            Some(end) => Ok(Some(end - end % 4096)),
            None => Err(AllocError),
        },
        None => Ok(None),
    }
}

/// The moment this many milliseconds later, in nanoseconds, if it is a 64-bit number.
fn deadline_after(now: u64, ms: u64) -> Option<u64>
    ensures { IfSome result (λ end. end ≡ after_ms now ms) }
{
    let nanos = ms.checked_mul(1_000_000)?;
    now.checked_add(nanos)
}

/// The value that an offer becomes in a part.
fn held_from(config: &Config, now: u64, part: u64, offer: Proposal) -> Result<Held, AllocError>
    ensures { IfOk result
        (λ h. h ≡ newly_held (value_with config.now now part (offer_from offer))) }
{
    let own = own_deadline(now, offer.ms)?;
    let weight = weight_of(config.weight, offer.bytes.as_slice());
    Ok(Held::accepted(offer.key, offer.bytes, part, weight, now, own))
}

/// Returns `Some` with the value that a step accepts, or with `None` if the step accepts none. Returns `None` if the step accepts wrongly,
/// and an error if there is not enough memory.
pub fn accept(
    alloc: Global,
    config: &Config,
    s: &State,
    doing: Doing<'_>,
    accepted: Option<Accepted>,
) -> Result<Option<Option<Held>>, AllocError>
    ensures accepts { IfOk result (Accepts config.now (shown_situation s.now)
        (action_of doing.entry) (option_map (λ a. a.part) accepted)) }
    ensures small { IfOk result
        (λ taken. IfSome taken (λ newcomer. IfSome newcomer (λ h. h.value.part < 256))) }
{
    let offer = offer_of(alloc, config, s, doing)?;
    match accepted {
        None => Ok(none_for(offer)),
        Some(accepted) => take(config, s.latest, accepted.part, offer),
    }
}

/// What a step accepts that names no part.
fn none_for(offer: Option<Proposal>) -> Option<Option<Held>>
    ensures takes { (config : Config) (now : ℕ)
        → AcceptsOffer config now None (option_map offer_from offer) result }
    ensures none { IfSome result (λ newcomer. newcomer ≡ None) }
{
    match offer {
        Some(_) => None,
        None => Some(None),
    }
}

/// What a step accepts that names this part.
fn take(
    config: &Config,
    now: u64,
    part: u64,
    offer: Option<Proposal>,
) -> Result<Option<Option<Held>>, AllocError>
    ensures takes { IfOk result
        (AcceptsOffer config.now now (Some part) (option_map offer_from offer)) }
    ensures small { IfOk result
        (λ taken. IfSome taken (λ newcomer. IfSome newcomer (λ h. h.value.part < 256))) }
{
    match offer {
        Some(offer) => {
            if part < part_count(config) {
                Ok(Some(Some(held_from(config, now, part, offer)?)))
            } else {
                Ok(None)
            }
        }
        None => Ok(None),
    }
}

/// Keeps the part of a value that is accepted, and returns whether its key has no other part. Returns an error if there is not enough
/// memory.
pub fn admit(parts: &mut Parts, newcomer: Option<&Held>) -> Result<bool, AllocError>
    ensures agrees { IfOk result
        (λ b. b ≡ agrees_with parts.old (option_map (λ h. h.now.value) newcomer.entry)) }
    ensures kept { IfOk result (λ b. b ≡ true
        → parts.new ≡ with_value parts.old (option_map (λ h. h.now.value) newcomer.entry)) }
{
    match newcomer {
        Some(held) => admit_value(parts, held),
        None => Ok(true),
    }
}

/// The same for one value.
fn admit_value(parts: &mut Parts, held: &Held) -> Result<bool, AllocError>
    ensures agrees { IfOk result
        (λ b. b ≡ agrees parts.old held.now.value.key held.now.value.part) }
    ensures kept { IfOk result
        (λ b. b ≡ true → parts.new ≡ with_part parts.old held.now.value.key held.now.value.part) }
{
    if !parts.agrees(held.key(), held.part()) {
        return Ok(false);
    }
    parts.keep(held.key(), held.part())?;
    Ok(true)
}
