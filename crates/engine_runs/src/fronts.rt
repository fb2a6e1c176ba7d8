//! The fronts at which a run looks.
ghost use Rattle.std.specs.Prelude.{◌≡◌, ℕ, [], true, false, None, is_some, IfSome, IfNone};
ghost use Rattle.engine_cells.specs.Kept.{kept_at};
ghost use Rattle.engine_reference.specs.Runs.{FrontsAreClean, IsTimerClean, IsUsedClean, IsWrittenClean, is_later_tick};
ghost use Rattle.engine_reference.specs.Times.{end_of, is_reached, tick_of};
ghost use Rattle.engine_reference.specs.declared.data.Record.{Record};
ghost use Rattle.engine_runs.specs.Fronts.{why_written, why_used, MayLeave, IsLight, IsClean, HidesNone};

use engine_cells::Cell;
use engine_reference::{RemovalCause, Rules, Settings};
use engine_tables::Tables;
use std::hash::{BuildHasher, Hash};

/// How many nanoseconds a tick of own expirations has.
const TICK: u64 = 1 << 30;

/// Whether a time that began at a moment has ended.
fn has_ended(since: u64, time: Option<u64>, now: u64) -> bool
    ensures { result ≡ is_reached (end_of since time) now }
{
    match time {
        None => false,
        Some(time) => since.saturating_add(time).min(18_446_744_073_709_551_614) <= now,
    }
}

/// Why a record has to leave, by its last write.
fn why_written<K, V>(
    found: &Cell<K, V>,
    settings: Settings,
    cleared: u64,
    now: u64,
) -> Option<RemovalCause>
    ensures { result ≡ why_written settings.live cleared now found.now }
{
    if !found.is_held() {
        return None;
    }
    if has_ended(found.written(), settings.live, now) {
        return Some(RemovalCause::Expired);
    }
    if found.step() < cleared {
        return Some(RemovalCause::Explicit);
    }
    None
}

/// Why a record has to leave, by its last use.
fn why_used<K, V>(found: &Cell<K, V>, settings: Settings, now: u64) -> Option<RemovalCause>
    ensures { result ≡ why_used settings.idle now found.now }
{
    if found.is_held() && has_ended(found.used(), settings.idle, now) {
        Some(RemovalCause::Expired)
    } else {
        None
    }
}

/// Whether no live time is set, so that no write list is kept.
fn lacks_write_list(settings: Settings) -> bool
    ensures none { result ≡ true → settings.live ≡ None }
    ensures some { result ≡ false → is_some settings.live ≡ true }
{
    settings.live.is_none()
}

/// The front of the write list, where it has to leave. Where no live time is set none has to.
fn written_leaving<K: Eq + Hash, V, S: BuildHasher, R: Rules<K, V>>(
    tables: &Tables<K, V, S, R>,
    now: u64,
) -> Option<(usize, RemovalCause)>
    requires { HidesNone tables.now.state }
    ensures found { IfSome result (λ due. (r : Record K V) × (kept_at tables.now due.0 ≡ Some r)
        × MayLeave tables.now.state now r due.1) }
    ensures none { IfNone result (IsWrittenClean now tables.now.state) }
{
    let settings = tables.settings();
    let cleared = tables.cleared();
    if lacks_write_list(settings) {
        return None;
    }
    let place = tables.first_written()?;
    match tables.record(place) {
        Some(found) => match why_written(found, settings, cleared, now) {
            Some(cause) => Some((place, cause)),
            None => None,
        },
        None => None,
    }
}

/// The front of the access list, where it has to leave.
fn used_leaving<K: Eq + Hash, V, S: BuildHasher, R: Rules<K, V>>(
    tables: &Tables<K, V, S, R>,
    now: u64,
) -> Option<(usize, RemovalCause)>
    ensures found { IfSome result (λ due. (r : Record K V) × (kept_at tables.now due.0 ≡ Some r)
        × MayLeave tables.now.state now r due.1) }
    ensures none { IfNone result (IsUsedClean now tables.now.state) }
{
    let settings = tables.settings();
    let _idle = settings.idle?;
    let place = tables.oldest()?;
    match tables.record(place) {
        Some(found) => match why_used(found, settings, now) {
            Some(cause) => Some((place, cause)),
            None => None,
        },
        None => None,
    }
}

/// The tick of a moment: own expirations are noticed by ticks of 2^30 nanoseconds, counted from the making rounded down to a multiple of
/// 4096.
fn tick_at(settings: &Settings, moment: u64) -> u64
    ensures { result ≡ tick_of settings.now moment }
{
    moment.saturating_sub(settings.made / 4096 * 4096) / TICK
}

/// Returns whether a run is in a later tick than the last run was.
pub fn is_in_later_tick<K: Eq + Hash, V, S: BuildHasher, R: Rules<K, V>>(
    tables: &Tables<K, V, S, R>,
    now: u64,
) -> bool
    ensures { result ≡ is_later_tick tables.now.state now }
{
    let settings = tables.settings();
    tick_at(&settings, tables.ran()) < tick_at(&settings, now)
}

/// A record whose own expiration was reached, which is noticed in a later tick than the last run's.
fn timer_leaving<K: Eq + Hash, V, S: BuildHasher, R: Rules<K, V>>(
    tables: &Tables<K, V, S, R>,
    now: u64,
    is_later: bool,
) -> Option<(usize, RemovalCause)>
    requires { is_later ≡ is_later_tick tables.now.state now }
    ensures found { IfSome result (λ due. (r : Record K V) × (kept_at tables.now due.0 ≡ Some r)
        × MayLeave tables.now.state now r due.1) }
    ensures none { IfNone result (IsTimerClean now tables.now.state) }
{
    if !is_later {
        return None;
    }
    match tables.first_due(now) {
        Some(place) => Some((place, RemovalCause::Expired)),
        None => None,
    }
}

/// The first settled record of the access list, where the weight is above the capacity. It may leave where nothing else has to.
fn excess_leaving<K: Eq + Hash, V, S: BuildHasher, R: Rules<K, V>>(
    tables: &Tables<K, V, S, R>,
) -> Option<(usize, RemovalCause)>
    ensures found { IfSome result (λ due. (r : Record K V) × (kept_at tables.now due.0 ≡ Some r)
        × ((now : ℕ) → FrontsAreClean now tables.now.state
        → MayLeave tables.now.state now r due.1)) }
    ensures none { IfNone result (IsLight tables.now.state) }
{
    if !tables.is_too_heavy() {
        return None;
    }
    match tables.first_settled() {
        Some(place) => Some((place, RemovalCause::Size)),
        None => None,
    }
}

/// Returns the place of the first record that has to leave, by the fronts, and why, or `None` if none has to. The cause is the weight only
/// if none has to leave for another cause.
pub fn next_leaving<K: Eq + Hash, V, S: BuildHasher, R: Rules<K, V>>(
    tables: &Tables<K, V, S, R>,
    now: u64,
    is_later: bool,
) -> Option<(usize, RemovalCause)>
    requires predicates { tables.now.state.predicates ≡ [] }
    requires hides { HidesNone tables.now.state }
    requires later { is_later ≡ is_later_tick tables.now.state now }
    ensures found { IfSome result (λ due. (r : Record K V) × (kept_at tables.now due.0 ≡ Some r)
        × MayLeave tables.now.state now r due.1) }
    ensures none { IfNone result (IsClean now tables.now.state) }
{
    if let Some(found) = written_leaving(tables, now) {
        return Some(found);
    }
    if let Some(found) = used_leaving(tables, now) {
        return Some(found);
    }
    if let Some(found) = timer_leaving(tables, now, is_later) {
        return Some(found);
    }
    if let Some(found) = excess_leaving(tables) {
        return Some(found);
    }
    None
}
