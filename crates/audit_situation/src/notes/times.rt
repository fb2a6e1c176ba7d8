//! When a deadline has come.
ghost use Rattle.std.specs.Prelude.{◌≡◌, ◌*◌, ◌+◌, nat_le, Some, None, if◌then◌else◌};
ghost use Rattle.audit_model.specs.Situation.{is_dead_at, is_live_at, live_at};
ghost use Rattle.audit_model.specs.Values.{after_ms};
ghost use Rattle.audit_situation.specs.Held.Seeing.{held_of};
ghost use Rattle.std.specs.Option.{option_map};

use crate::held::{Holding, Seen};
use audit_model::Config;

const NANOS: u64 = 1_000_000;

/// Whether the moment that many milliseconds later is at or before `now`.
fn is_past(moment: u64, ms: u64, now: u64) -> bool
    ensures { result ≡ nat_le (after_ms moment ms) now }
{
    match ms.checked_mul(NANOS) {
        Some(nanos) => match moment.checked_add(nanos) {
            Some(end) => end <= now,
            None => false,
        },
        None => false,
    }
}

/// Returns whether a held value's deadline has come at `now`, a moment in nanoseconds.
pub fn is_dead(config: &Config, now: u64, held: &Seen<'_>) -> bool
    ensures { result ≡ is_dead_at config.now now (held_of held.entry.now) }
{
    let own = match held.own_deadline {
        Some(end) => end <= now,
        None => false,
    };
    let lived = match config.live_ms {
        Some(ms) => is_past(held.accepted_at, ms, now),
        None => false,
    };
    let idle = match config.idle_ms {
        Some(ms) => is_past(held.last_use, ms, now),
        None => false,
    };
    own || lived || idle
}

/// Returns whether a held value is live at `now`, a moment in nanoseconds.
pub fn is_live(config: &Config, now: u64, held: &Seen<'_>) -> bool
    ensures { result ≡ is_live_at config.now now (held_of held.entry.now) }
{
    !held.covered && !is_dead(config, now, held)
}

/// Returns the live value of a key at `now`, a moment in nanoseconds, or `None` if there is none.
pub fn live<'a>(config: &Config, now: u64, held: &'a Holding, key: &'a [u8]) -> Option<Seen<'a>>
    ensures { option_map (λ s. (held_of s).value) result ≡ live_at config.now now held.now key.now }
{
    let _number = held.len();
    match held.get(key) {
        Some(seen) => if_live(config, now, seen),
        None => None,
    }
}

/// A value, if it is live.
fn if_live<'a>(config: &Config, now: u64, seen: Seen<'a>) -> Option<Seen<'a>>
    ensures { result
        ≡ (if is_live_at config.now now (held_of seen.entry) then Some seen.entry else None) }
{
    if is_live(config, now, &seen) {
        Some(seen)
    } else {
        None
    }
}
