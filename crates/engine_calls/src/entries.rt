//! Entries as a write or a look-up leaves them, and what is told of them.
ghost use Rattle.std.specs.Prelude.{◌≡◌, ℕ, ◌-◌, ◌<◌, ◌^◌, true, is_some, Some, if◌then◌else◌};
ghost use Rattle.engine_reference.specs.Rules.Changes.{change_of};
ghost use Rattle.engine_reference.specs.declared.rules.causes.RemovalCause.TheVariants as cause;
ghost use Rattle.engine_cells.specs.Kept.{kept_at};
ghost use Rattle.engine_reference.specs.Calls.{first_entry, next_entry, used_entry};
ghost use Rattle.engine_reference.specs.Times.{changed_expiration, has_come};
ghost use Rattle.engine_reference.specs.Visible.{cause_of_write};
ghost use Rattle.engine_reference.specs.declared.data.Record.{Record};

use crate::times::{own_expiration, time_left};
use engine_pending::is_dead;
use engine_reference::{Entry, Expiration, RemovalCause, Rules, Settings};
use engine_tables::Tables;
use policy_base::Instant;
use std::hash::{BuildHasher, Hash};

/// The own expiration after an answer that may leave it as it is.
fn changed(now: Instant, answer: Expiration, before: Option<u64>) -> Option<u64>
    ensures { result ≡ changed_expiration now (change_of answer) before }
{
    match answer {
        Expiration::Keep => before,
        Expiration::Set(time) => own_expiration(now, time),
    }
}

/// Returns the entry of a key that is new.
pub fn first_entry<K: Eq + Hash, V, S: BuildHasher, R: Rules<K, V>>(
    tables: &Tables<K, V, S, R>,
    key: K,
    value: V,
    now: Instant,
    step: u64,
) -> Entry<K, V>
    ensures { result ≡ first_entry R.answers tables.now.state key value now step }
{
    let rules = tables.rules();
    let weight = rules.weight(&key, &value);
    let time = rules.created_expiration(&key, &value, now);
    Entry {
        key,
        value,
        step,
        written: now.as_nanos(),
        used: now.as_nanos(),
        expires: own_expiration(now, time),
        weight,
    }
}

/// Returns the entry in a place as it is after a write over it.
pub fn next_entry<K: Eq + Hash, V, S: BuildHasher, R: Rules<K, V>>(
    tables: &Tables<K, V, S, R>,
    place: usize,
    key: K,
    value: V,
    now: Instant,
    step: u64,
) -> Entry<K, V>
    requires { is_some (kept_at tables.now place) ≡ true }
    ensures { (r : Record K V) → kept_at tables.now place ≡ Some r
        → result ≡ next_entry R.answers tables.now.state r.entry key value now step }
{
    let rules = tables.rules();
    let before = tables.record_in(place).expires();
    let weight = rules.weight(&key, &value);
    let moment = now.as_nanos();
    let left = time_left(tables.settings(), moment, before, moment, moment);
    let answer = rules.updated_expiration(&key, &value, now, left);
    Entry {
        key,
        value,
        step,
        written: moment,
        used: moment,
        expires: changed(now, answer, before),
        weight,
    }
}

/// Returns the moment in nanoseconds at which the entry in a place expires by itself after a look-up that found it, or `None` if it does
/// not.
pub fn expires_after_use<K: Eq + Hash, V, S: BuildHasher, R: Rules<K, V>>(
    tables: &Tables<K, V, S, R>,
    place: usize,
    now: Instant,
) -> Option<u64>
    requires there { is_some (kept_at tables.now place) ≡ true }
    requires moment { (r : Record K V) → kept_at tables.now place ≡ Some r
        → r.entry.written < 2 ^ 64 - 1 }
    ensures { (r : Record K V) → kept_at tables.now place ≡ Some r
        → result ≡ (used_entry R.answers tables.now.state now r.entry).expires }
{
    let found = tables.record_in(place);
    let before = found.expires();
    let left = time_left(
        tables.settings(),
        now.as_nanos(),
        before,
        found.written(),
        found.used(),
    );
    let written = Instant::from_nanos(found.written());
    let rules = tables.rules();
    let answer = rules.read_expiration(found.key(), found.value(), now, left, written);
    changed(now, answer, before)
}

/// Returns the cause with which a write reports the value in a place that it replaces.
pub fn cause_of_write<K: Eq + Hash, V, S: BuildHasher, R: Rules<K, V>>(
    tables: &Tables<K, V, S, R>,
    place: usize,
    now: u64,
) -> RemovalCause
    requires { is_some (kept_at tables.now place) ≡ true }
    ensures { (r : Record K V) → kept_at tables.now place ≡ Some r → tables.now.state.settings.tells
        ≡ true → result ≡ cause_of_write R.answers tables.now.state now r.entry }
{
    let settings = tables.settings();
    if !settings.tells {
        return RemovalCause::Replaced;
    }
    let found = tables.record_in(place);
    if found.is_dead(settings, now) {
        return RemovalCause::Expired;
    }
    if tables.is_over(found) {
        return RemovalCause::Explicit;
    }
    RemovalCause::Replaced
}

/// Returns the cause with which a removal by key reports an entry.
pub fn cause_of_removal<K, V>(settings: Settings, now: u64, entry: &Entry<K, V>) -> RemovalCause
    ensures { result ≡ (if has_come settings now entry.now then cause.Expired else cause.Explicit) }
{
    if is_dead(settings, now, entry.expires, entry.written, entry.used) {
        return RemovalCause::Expired;
    }
    RemovalCause::Explicit
}

/// Returns the entry in a place, of this key and value.
pub fn entry_of<K: Eq + Hash, V, S: BuildHasher, R: Rules<K, V>>(
    tables: &Tables<K, V, S, R>,
    place: usize,
    key: K,
    value: V,
) -> Entry<K, V>
    requires there { is_some (kept_at tables.now place) ≡ true }
    requires parts { (r : Record K V) → kept_at tables.now place ≡ Some r
        → (key ≡ r.entry.key) × (value ≡ r.entry.value) }
    ensures { (r : Record K V) → kept_at tables.now place ≡ Some r → result ≡ r.entry }
{
    let found = tables.record_in(place);
    Entry {
        key,
        value,
        step: found.step(),
        written: found.written(),
        used: found.used(),
        expires: found.expires(),
        weight: found.weight(),
    }
}
