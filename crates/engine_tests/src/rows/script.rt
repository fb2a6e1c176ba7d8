//! What is asked of a cache, row by row, and what has to come of it. A call that is refused for
//! memory is made once more, and has changed nothing; so the rows pass with any one allocation
//! refused. Rows and not calls one behind the other, since each call of a test is proved on its
//! own.

use crate::hashes::hashes_so;
use crate::housekeeping::keeps_house;
use crate::names::finds_by_names;
use crate::rows::calls::{
    contains, forget, give_up, invalidate, invalidate_apart, invalidate_in_halves, put,
    put_by_name, puts, remove, remove_at_once, remove_in_halves, shown, stored_key,
};
use crate::rows::rules::{Folding, Lives, Numbers, ONE, Weighs};
use engine_reference::{Bundle, EvictionPolicy, RemovalCause, Settings};
use moka_engine::Refusal;
use policy_base::{HousekeeperConfig, Instant};
use std::alloc::{AllocError, Global};
use std::process::Abort;
use std::time::Duration;

/// A second, in nanoseconds.
pub const SECOND: u64 = 1_000_000_000;

/// How a value is looked up.
#[derive(Clone, Copy)]
pub enum Look {
    /// By `get_with_hash`, a use.
    Get,
    /// By `get_with_hash_and_ignore_if`, which passes over this value.
    GetPast(u32),
    /// By `get_with_hash_unless`, which passes over this value and then notes nothing.
    GetUnless(u32),
    /// By `get_with_hash_without_recording`.
    Peek,
    /// By `scanning_get`.
    Scan,
    /// By `peek`.
    Borrow,
    /// By `peek` and then `note_look_up`, a use.
    InHalves,
    /// By `held_value_with_hash`, which shows dead and covered values too.
    Held,
}

/// A call and its expected result.
#[derive(Clone, Copy)]
pub enum Row<'a> {
    /// From here on it is that moment, in nanoseconds.
    At(u64),
    /// A value of a key is written at a step, and its write is sent.
    Puts(u32, u32, u64),
    /// The same at each step from 1 up to that, which is not among them.
    PutsOften(u32, u32, u64),
    /// A value of a key is written at a step under that ticket, which is not sent.
    HoldsBack(u32, u32, u64, u64),
    /// The write of a ticket is sent.
    Sends(u64, Result<(), Refusal>),
    /// A key is removed and its entry reported: its value, and the ticket of the removal, which is not
    /// sent.
    Removes(u32, Result<Option<(u32, u64)>, Refusal>),
    /// The same in two halves.
    RemovesInHalves(u32, Result<Option<(u32, u64)>, Refusal>),
    /// The same, and the removal is sent: its value.
    RemovesAtOnce(u32, Result<Option<u32>, Refusal>),
    /// The same without its value: whether it was held.
    Forgets(u32, Result<bool, Refusal>),
    /// A value of a key is written at a step by a name of that key, and its write is sent.
    PutsByName(u32, u32, u64, Result<(), Refusal>),
    /// All is cleared at a step.
    Clears(u64),
    /// A predicate of a value is registered at a step under that identifier, by a generator of that
    /// word.
    Invalidates(u32, u64, u32, Result<u128, Refusal>),
    /// The same in two halves.
    InvalidatesInHalves(u32, u64, u32, Result<u128, Refusal>),
    /// The same, with its room made before its identifier is drawn.
    InvalidatesApart(u32, u64, u32, Result<u128, Refusal>),
    /// An identifier is drawn by a generator of that word, and its room given up.
    GivesUp(u32, Result<u128, Refusal>),
    Runs,
    /// A run for which there is memory.
    RunsWhole,
    /// A run if it is due.
    RunsIfDue,
    /// What a look shows of a key.
    Shows(Look, u32, Option<u32>),
    /// A look at a key is refused.
    Refuses(Look, u32),
    Contains(u32, bool),
    /// What `get_key_with_hash` returns.
    Key(u32, Option<u32>),
    /// The keys of the first segment, in any order.
    Keys(&'a [u32]),
    /// There is no such segment.
    NoKeys(usize),
    /// Whether the last run found no memory for the sketch's table.
    TableRefused(bool),
    /// How many values are held.
    Number(u64),
    /// What they weigh.
    Weight(u64),
    /// The next notice is of a value of a key, with its cause.
    Tells(RemovalCause, u32, u32),
    /// The next notices are of the keys 0 to 2, cleared, in any order.
    TellsThreeCleared,
    TellsNone,
    /// Whether removals are reported.
    Notifies(bool),
    Capacity(Option<u64>),
    /// How long values live after a write and after a use, in nanoseconds.
    Times(Option<u64>, Option<u64>),
    Segments(usize),
    MapDisabled(bool),
    Named(Option<&'a str>),
    /// Keys have their hasher's hashes.
    Hashes,
    /// A key is found by what names it.
    FindsByNames,
    /// A housekeeper says when runs are due.
    KeepsHouse,
}

/// A cache, and the calls on it.
#[derive(Clone, Copy)]
pub struct Case<'a> {
    pub name: Option<&'a str>,
    pub settings: Settings,
    /// How long each value lives by its own time, in nanoseconds.
    pub own: Option<u64>,
    pub weighs: Weighs,
    /// The calls that come first, if other cases have them too.
    pub before: &'a [Row<'a>],
    pub rows: &'a [Row<'a>],
}

/// The least recently used leaves above the capacity, if there is one; removals are reported,
/// predicates are taken, and there are no times.
pub const SETTINGS: Settings = Settings {
    capacity: None,
    live: None,
    idle: None,
    policy: EvictionPolicy::Lru,
    tells: true,
    takes_predicates: true,
    made: 0,
};

/// A case without a name and without calls, with these settings and weights of one.
pub const CASE: Case<'static> = Case {
    name: None,
    settings: SETTINGS,
    own: None,
    weighs: ONE,
    before: &[],
    rows: &[],
};

/// For how many entries a cache is made.
const INITIAL_CAPACITY: usize = 2;

pub fn at(nanos: u64) -> Instant {
    Instant::from_nanos(nanos.min(1_000_000_000_000))
}

fn duration(nanos: Option<u64>) -> Option<Duration> {
    match nanos {
        Some(nanos) => Some(Duration::from_nanos(nanos)),
        None => None,
    }
}

/// Whether that is so at each step from 1 up to the end.
fn puts_often(cache: &mut Numbers, key: u32, value: u32, now: Instant, end: u64) -> bool {
    for step in 1..end {
        if !puts(cache, key, value, now, step) {
            return false;
        }
    }
    true
}

/// A run for which there is memory, on the second attempt if it is refused: the first has done all
/// the rest.
fn runs_whole(cache: &mut Numbers, now: Instant) -> bool {
    cache.try_run_pending_tasks(now).is_ok() || cache.try_run_pending_tasks(now).is_ok()
}

/// The keys of a segment, on the second attempt if memory is refused.
fn keys(cache: &Numbers, segment: usize) -> Result<Option<Vec<u32>>, AllocError> {
    match cache.keys(segment) {
        Ok(found) => Ok(found),
        Err(_) => cache.keys(segment),
    }
}

/// Whether each wanted key was found, and no other.
fn are_those(found: &[u32], wanted: &[u32]) -> bool {
    for key in wanted {
        if !found.contains(key) {
            return false;
        }
    }
    found.len() == wanted.len()
}

fn has_keys(cache: &Numbers, wanted: &[u32]) -> bool {
    match keys(cache, 0) {
        Ok(Some(found)) => are_those(found.as_slice(), wanted),
        _ => false,
    }
}

fn has_no_keys(cache: &Numbers, segment: usize) -> bool {
    match keys(cache, segment) {
        Ok(None) => true,
        _ => false,
    }
}

fn tells(cache: &mut Numbers, cause: RemovalCause, key: u32, value: u32) -> bool {
    match cache.next_notice() {
        Some(notice) => notice.cause == cause && notice.key == key && notice.value.number == value,
        None => false,
    }
}

/// What is told next is one of the keys 0 to 2, cleared; answers it among those that were told
/// before, each a bit.
fn told_cleared(cache: &mut Numbers, told: u32) -> Option<u32> {
    match cache.next_notice() {
        Some(notice) => {
            if notice.cause == RemovalCause::Explicit && notice.key < 3 {
                Some(told | (1 << notice.key))
            } else {
                None
            }
        }
        None => None,
    }
}

fn tells_three_cleared(cache: &mut Numbers) -> bool {
    let mut told = 0;
    for _ in 0..3 {
        match told_cleared(cache, told) {
            Some(with) => told = with,
            None => return false,
        }
    }
    told == 7
}

fn has_times(cache: &Numbers, live: Option<u64>, idle: Option<u64>) -> bool {
    let policy = cache.policy();
    policy.time_to_live() == duration(live) && policy.time_to_idle() == duration(idle)
}

/// Writes, sends, removes or clears, and returns whether the result was the expected one.
fn writes_so(cache: &mut Numbers, now: Instant, row: Row<'_>) -> bool {
    match row {
        Row::At(_) => true,
        Row::Puts(key, value, step) => puts(cache, key, value, now, step),
        Row::PutsOften(key, value, end) => puts_often(cache, key, value, now, end),
        Row::HoldsBack(key, value, step, ticket) => {
            put(cache, key, value, now, step) == Ok(ticket)
        }
        Row::Sends(ticket, wanted) => cache.send(ticket) == wanted,
        Row::Removes(key, wanted) => remove(cache, key, now) == wanted,
        Row::RemovesInHalves(key, wanted) => remove_in_halves(cache, key, now) == wanted,
        Row::Clears(step) => {
            cache.invalidate_all(step);
            true
        }
        row => sends_so(cache, now, row),
    }
}

/// Makes a call that sends its own write, and returns whether the result was the expected one.
fn sends_so(cache: &mut Numbers, now: Instant, row: Row<'_>) -> bool {
    match row {
        Row::RemovesAtOnce(key, wanted) => remove_at_once(cache, key, now) == wanted,
        Row::Forgets(key, wanted) => forget(cache, key, now) == wanted,
        Row::PutsByName(key, value, step, wanted) => {
            put_by_name(cache, key, value, now, step) == wanted
        }
        row => runs_so(cache, now, row),
    }
}

/// Registers a predicate or runs, and returns whether the result was the expected one.
fn runs_so(cache: &mut Numbers, now: Instant, row: Row<'_>) -> bool {
    match row {
        Row::Invalidates(value, step, word, wanted) => {
            invalidate(cache, value, step, word) == wanted
        }
        Row::InvalidatesInHalves(value, step, word, wanted) => {
            invalidate_in_halves(cache, value, step, word) == wanted
        }
        Row::InvalidatesApart(value, step, word, wanted) => {
            invalidate_apart(cache, value, step, word) == wanted
        }
        Row::GivesUp(word, wanted) => give_up(cache, word) == wanted,
        Row::Runs => {
            cache.run_pending_tasks(now);
            true
        }
        Row::RunsWhole => runs_whole(cache, now),
        Row::RunsIfDue => {
            cache.apply_reads_writes_if_needed(now);
            true
        }
        row => looks_so(cache, now, row),
    }
}

/// Looks for keys or takes notices, and returns whether the result was the expected one.
fn looks_so(cache: &mut Numbers, now: Instant, row: Row<'_>) -> bool {
    match row {
        Row::Shows(by, key, wanted) => shown(cache, by, key, now) == Ok(wanted),
        Row::Refuses(by, key) => shown(cache, by, key, now).is_err(),
        Row::Contains(key, wanted) => contains(cache, key, now) == wanted,
        Row::Key(key, wanted) => stored_key(cache, key) == Ok(wanted),
        Row::Keys(wanted) => has_keys(cache, wanted),
        Row::NoKeys(segment) => has_no_keys(cache, segment),
        Row::Tells(cause, key, value) => tells(cache, cause, key, value),
        Row::TellsThreeCleared => tells_three_cleared(cache),
        Row::TellsNone => cache.next_notice().is_none(),
        Row::Hashes => hashes_so(cache),
        Row::FindsByNames => finds_by_names(cache),
        Row::KeepsHouse => keeps_house(cache),
        row => is_so(cache, row),
    }
}

/// Whether a cache has these counts or was made so.
fn is_so(cache: &Numbers, row: Row<'_>) -> bool {
    match row {
        Row::TableRefused(wanted) => cache.is_table_refused() == wanted,
        Row::Number(wanted) => cache.entry_count() == wanted,
        Row::Weight(wanted) => cache.weighted_size() == wanted,
        Row::Notifies(wanted) => cache.is_removal_notifier_enabled() == wanted,
        Row::Capacity(wanted) => cache.policy().max_capacity() == wanted,
        Row::Times(live, idle) => has_times(cache, live, idle),
        Row::Segments(wanted) => {
            cache.num_cht_segments() == wanted && cache.policy().num_segments() == wanted
        }
        Row::MapDisabled(wanted) => cache.is_map_disabled() == wanted,
        Row::Named(wanted) => cache.name() == wanted,
        _ => false,
    }
}

fn moment_from(row: Row<'_>, now: Instant) -> Instant {
    match row {
        Row::At(nanos) => at(nanos),
        _ => now,
    }
}

/// Asks one row after another, and returns the place of the first that failed.
pub fn wrong_among(cache: &mut Numbers, rows: &[Row<'_>], now: &mut Instant) -> Option<usize> {
    for (place, row) in rows.iter().enumerate() {
        *now = moment_from(*row, *now);
        if !writes_so(cache, *now, *row) {
            return Some(place);
        }
    }
    None
}

/// The same of a case from moment 0 on, counted from the first of those before.
fn wrong_row(cache: &mut Numbers, case: &Case<'_>) -> Option<usize> {
    let mut now = at(0);
    match wrong_among(cache, case.before, &mut now) {
        Some(place) => Some(place),
        None => match wrong_among(cache, case.rows, &mut now) {
            Some(place) => Some(case.before.len().saturating_add(place)),
            None => None,
        },
    }
}

fn text(alloc: Global, of: Option<&str>) -> Result<Option<String>, AllocError> {
    match of {
        Some(of) => {
            let made = String::from_str(alloc, of)?;
            Ok(Some(made))
        }
        None => Ok(None),
    }
}

/// The empty cache of a case.
fn made(alloc: Global, case: &Case<'_>) -> Result<Numbers, AllocError> {
    let name = text(alloc, case.name)?;
    let time = duration(case.own);
    Numbers::new(
        alloc,
        name,
        INITIAL_CAPACITY,
        case.settings,
        HousekeeperConfig::default(),
        Folding::new(),
        Bundle::new(Lives { time }, case.weighs),
    )
}

/// The same, on the second attempt if memory is refused.
pub fn empty_cache(alloc: Global, case: &Case<'_>) -> Result<Numbers, AllocError> {
    match made(alloc, case) {
        Ok(cache) => Ok(cache),
        Err(_) => made(alloc, case),
    }
}

/// The place of the first row of a case that does not come out so; the first where there was no
/// memory for a cache.
fn wrong_row_of(alloc: Global, case: &Case<'_>) -> Option<usize> {
    match empty_cache(alloc, case) {
        Ok(mut cache) => wrong_row(&mut cache, case),
        Err(_) => Some(0),
    }
}

/// Plays these cases, and returns the first that failed, and the place of its first failing row.
fn first_wrong(alloc: Global, cases: &[Case<'_>]) -> Option<(usize, usize)> {
    for (number, case) in cases.iter().enumerate() {
        if let Some(place) = wrong_row_of(alloc, case) {
            return Some((number, place));
        }
    }
    None
}

/// Each case came out so.
pub fn none_wrong(rt: &impl Abort, alloc: Global, cases: &[Case<'_>]) {
    assert_eq!(rt; first_wrong(alloc, cases), None);
}
