//! Calls of a cache, one after another.
ghost use Rattle.std.specs.Prelude.{◌<◌, IfSome};
ghost use Rattle.front_reference.specs.Fronts.{ComesAfter};

use crate::playing::closures::{attempt_in_segments, perform_closure};
use crate::playing::hashing::Times;
use crate::playing::rules::IsEither;
use crate::playing::selecting::Select;
use crate::playing::turning::Turning;
use engine_reference::{Bundle, EvictionPolicy, NoExpiry, RemovalCause, WeighOne};
use front_parts::Iter;
use front_reference::{
    At, CacheError, ClonedKey, LentKey, Made, OwnedKey, Shared, TurnKind, TurnStart,
};
use moka::{BuildError, CacheBuilder, LentState, Segmented, Single};
use policy_base::Instant;
use std::alloc::{AllocError, Global};
use std::process::Abort;
use std::time::Duration;

/// A cache of numbers.
pub type Numbers<C = Segmented> = LentState<
    u64,
    u64,
    Times,
    Bundle<NoExpiry, WeighOne, IsEither, ()>,
    C,
>;

/// How a row's cache is made.
#[derive(Clone, Copy)]
pub struct Form {
    pub segments: usize,
    pub capacity: Option<u64>,
    /// Which values it lets go where there is no room.
    pub policy: EvictionPolicy,
    /// How many milliseconds its values live, if there is a bound.
    pub live: Option<u64>,
    /// By what its hasher multiplies.
    pub factor: u64,
}

/// A number by which keys spread over parts.
pub const SPREAD: u64 = 11_400_714_819_323_198_485;

/// A cache of one part without bounds, whose values live longer than any row; it lets go what was used least recently.
pub const ONE: Form = Form {
    segments: 1,
    capacity: None,
    policy: EvictionPolicy::Lru,
    live: Some(1_000_000),
    factor: SPREAD,
};

/// How a turn begins.
#[derive(Clone, Copy, PartialEq, Eq)]
pub enum Start {
    /// This value is visible.
    Found(u64),
    /// The turn of this number is under way.
    Wait(u64),
    /// The turn of this number began.
    Lead(u64),
}

fn start_of(start: TurnStart<u64>) -> Start {
    match start {
        TurnStart::Found(value) => Start::Found(value),
        TurnStart::Wait(number) => Start::Wait(number),
        TurnStart::Lead(number) => Start::Lead(number),
    }
}

/// One call, and what it is to answer.
#[derive(Clone, Copy)]
pub enum Call {
    /// The visible value of a key, of which it is a use.
    Get(u64, Option<u64>),
    /// Whether a key has a visible value.
    Has(u64, bool),
    /// The visible value of a key, without a use of it.
    Peek(u64, Option<u64>),
    /// A key is held, whether its value is visible or not, or it is not held.
    Held(u64, bool),
    /// The visible value of a key, of which it is a use, without a clone.
    LookUp(u64, Option<u64>),
    /// A look-up that is refused once the value is seen.
    RefusedLookUp(u64, Option<u64>),
    /// How many keys have a visible value.
    Visible(usize),
    /// A key gets a value.
    Insert(u64, u64),
    /// `insert_with_hash` of what names a key.
    InsertNamed(u64, u64),
    /// `insert_named`, which keeps the key that is held.
    InsertKept(u64, u64),
    /// A key is removed, whose value is this.
    Remove(u64, Option<u64>),
    /// A key is removed.
    Invalidate(u64),
    /// All keys are removed.
    Clear,
    /// Maintenance runs to its end.
    Run,
    /// The same where it may be refused.
    TryRun,
    /// How many entries there are, as of the last run.
    Count(u64),
    /// The value of a key or this one, and whether it was made now.
    OrInsert(u64, u64, (u64, bool)),
    /// A call of a kind begins, for a key.
    Begin(TurnKind, u64, Start),
    /// The same in two halves, where a value of 0 is passed over.
    BeginInHalves(TurnKind, u64, Start),
    /// The turn of this number ends with a value.
    Finish(u64, u64, Result<(), CacheError>),
    /// The turn of this number is given up.
    Abandon(u64, Result<(), CacheError>),
    /// Whether no turn of a kind and a key is under way.
    IsFree(TurnKind, u64, bool),
    /// The oldest notice is of this key and cause.
    Told(u64, RemovalCause),
    /// The key and the cause of the oldest notice of a key's part, if it has one.
    ToldOfPart(u64, Option<(u64, RemovalCause)>),
    /// No notice is left.
    NoneTold,
    /// The two oldest notices are of these keys, in any order, and of this cause.
    ToldBoth(u64, u64, RemovalCause),
    /// The oldest notice is of this cause.
    ToldOf(RemovalCause),
    /// So many keys, from 0 on, are inserted, each with its number, and each is followed by a run.
    InsertEachAndRun(u64),
    /// So many keys are inserted, each at the moment of its number, with a value of its own.
    InsertEach(u64),
    /// So many keys are removed.
    InvalidateEach(u64),
    /// The oldest notices, so many, are of this cause.
    ToldEach(u64, RemovalCause),
    /// An iterator gives so many of the keys of `InsertEach`, each once.
    Gives(u64),
    /// A predicate on two values is registered in all segments; its identifiers are drawn from so
    /// many words of 0, and then of all ones.
    Cover(u64, u64, u32, Result<(), CacheError>),
    /// A call with a closure.
    With(Closure),
}

/// One call with a closure, and what it is to answer.
#[derive(Clone, Copy)]
pub enum Closure {
    /// `get_with` of a key with this value.
    GetWith(u64, u64, u64),
    /// `get_with_if`, where this value is replaced.
    GetWithIf(u64, u64, u64, u64),
    /// `optionally_get_with` of a key with what is made.
    Optionally(u64, Option<u64>, Option<u64>),
    /// `get_or_try_insert_with` of a key with what is made.
    Try(u64, Result<u64, ()>, Result<u64, ()>),
    /// `or_insert`, and whether the entry is fresh.
    OrInsert(u64, u64, (u64, bool)),
    /// `or_insert_with_if`, where this value is replaced: the entry's value, whether it is fresh,
    /// and whether a value was replaced.
    OrInsertIf(u64, u64, u64, (u64, bool, bool)),
    /// `and_upsert_with` to this value: whether the entry is fresh, and whether a value was
    /// replaced.
    Upsert(u64, u64, (bool, bool)),
    /// A compute call that counts to 2, and then removes.
    CountUp(u64, Done),
    /// A compute call that removes.
    TakeOut(u64, Done),
    /// A call for a key.
    Select(u64, Select),
}

/// What a compute call did.
#[derive(Clone, Copy, PartialEq, Eq)]
pub enum Done {
    /// There was no value, and there is none.
    StillNone,
    /// This value stays.
    Unchanged(u64),
    /// This value is the first.
    Inserted(u64),
    /// This value came for another.
    ReplacedWith(u64),
    /// This value was removed.
    Removed(u64),
}

/// When the next call comes: at this moment, or that of the last one where that is later.
pub fn next<C>(state: &Numbers<C>, nanos: u64) -> Option<At>
    ensures follows { IfSome result (λ at. ComesAfter at.now at.step state.now) }
    ensures rises { IfSome result (λ at. state.now.step < at.step) }
{
    let last = state.last_call();
    let step = last.step.checked_add(1)?;
    let now = last
        .now
        .max(Instant::from_nanos(nanos.min(1_000_000_000_000)));
    Some(At { now, step })
}

/// What builds a cache of numbers.
type NumbersBuilder = CacheBuilder<NoExpiry, WeighOne, IsEither, ()>;

/// What builds an empty cache of a form without a capacity, which tells removals and takes predicates.
fn unbounded_builder_of(form: Form) -> NumbersBuilder {
    let builder = CacheBuilder::default()
        .eviction_policy(form.policy)
        .eviction_listener()
        .support_invalidation_closures();
    match form.live {
        Some(live) => builder.time_to_live(Duration::from_millis(live)),
        None => builder,
    }
}

/// The same with its capacity.
fn builder_of(form: Form) -> NumbersBuilder {
    let builder = unbounded_builder_of(form);
    match form.capacity {
        Some(capacity) => builder.max_capacity(capacity),
        None => builder,
    }
}

/// Such a cache in as many segments as its form says.
fn numbers(alloc: Global, form: Form) -> Result<Numbers, BuildError> {
    let hasher = Times {
        factor: form.factor,
    };
    let builder = builder_of(form).segments(form.segments);
    builder.build_state(alloc, hasher, Instant::from_nanos(0))
}

/// Such a cache of one part.
fn single(alloc: Global, form: Form) -> Result<Numbers<Single>, BuildError> {
    let hasher = Times {
        factor: form.factor,
    };
    builder_of(form).build_state(alloc, hasher, Instant::from_nanos(0))
}

/// Puts what was found behind `output`, and refuses then or not.
fn put(found: Option<&u64>, output: &mut Option<u64>, refuses: bool) -> Result<(), CacheError> {
    *output = found.copied();
    if refuses {
        Err(CacheError::OutOfMemory)
    } else {
        Ok(())
    }
}

/// Whether a look-up shows that, and is refused or not.
fn is_seen<C>(state: &mut Numbers<C>, at: At, key: u64, refuses: bool, value: Option<u64>) -> bool
    requires { ComesAfter at.now at.step state.old }
{
    let mut output = None;
    let done = state.look_up(
        &key,
        at.now,
        &mut output,
        |found, output| put(found, output, refuses),
    );
    done.is_err() == refuses && output == value
}

/// Whether a key is held, and is the one that is asked for, or is not held.
fn is_held_so<C>(state: &Numbers<C>, key: u64, is_held: bool) -> bool {
    match state.held_key(&key, state.hash(&key)) {
        Ok(Some(held)) => is_held && *held == key,
        Ok(None) => !is_held,
        Err(_) => false,
    }
}

/// The next pair, with the key itself.
fn take_next<C>(
    given: &mut Iter<'_, Shared<u64>, u64, Numbers<C>>,
) -> Option<Result<(u64, u64), CacheError>> {
    match given.next() {
        Some(Ok((key, value))) => Some(Ok((*key, value))),
        Some(Err(refused)) => Some(Err(refused)),
        None => None,
    }
}

/// How many keys below 64 an iterator gives, each with its own value, before it ends; or 64 where
/// one comes twice, or another one.
fn count_given<C>(state: &Numbers<C>) -> u32 {
    let mut seen = 0u64;
    let mut given = state.iter(Instant::from_nanos(1000));
    for _ in 0..200 {
        match take_next(&mut given) {
            Some(Ok((key, value))) => {
                if key >= 64 || value != key ^ 64 || (seen >> key) & 1 == 1 {
                    return 64;
                }
                seen |= 1 << key;
            }
            Some(Err(_)) => {}
            None => return seen.count_ones(),
        }
    }
    64
}

/// Looks a key up without a clone of its value.
fn perform_lent<C>(state: &mut Numbers<C>, at: At, call: Call) -> bool
    requires { ComesAfter at.now at.step state.old }
{
    match call {
        Call::Has(key, is_there) => state.contains_key(&key, at.now) == is_there,
        Call::Peek(key, value) => match state.peek(&key, at.now) {
            Some(found) => value == Some(*found),
            None => value.is_none(),
        },
        Call::Held(key, is_held) => is_held_so(state, key, is_held),
        Call::Visible(number) => state.count_visible(at.now) == number,
        Call::Gives(number) => u64::from(count_given(state)) == number,
        Call::LookUp(key, value) => is_seen(state, at, key, false, value),
        Call::RefusedLookUp(key, value) => is_seen(state, at, key, true, value),
        _ => false,
    }
}

/// Looks up, inserts and removes.
fn perform_simple<C>(state: &mut Numbers<C>, at: At, call: Call) -> Result<bool, CacheError>
    requires follows { ComesAfter at.now at.step state.old }
    requires rises { state.old.step < at.step }
{
    match call {
        Call::Get(key, value) => Ok(state.get(&key, at)? == value),
        Call::Insert(key, value) => {
            state.insert(key, value, at)?;
            Ok(true)
        }
        Call::Remove(key, value) => Ok(state.remove(&key, at)? == value),
        Call::Invalidate(key) => {
            state.invalidate(&key, at)?;
            Ok(true)
        }
        Call::Clear => {
            state.invalidate_all(at);
            Ok(true)
        }
        Call::Run => {
            state.run_pending_tasks(at);
            Ok(true)
        }
        Call::TryRun => match state.try_run_pending_tasks(at) {
            Ok(()) => Ok(true),
            Err(_) => Err(CacheError::OutOfMemory),
        },
        Call::Count(number) => Ok(state.entry_count() == number && state.weighted_size() == number),
        _ => Ok(false),
    }
}

/// Turns and coalesced calls.
fn perform_turn<C>(
    alloc: Global,
    state: &mut Numbers<C>,
    at: At,
    call: Call,
) -> Result<bool, CacheError>
    requires { ComesAfter at.now at.step state.old }
{
    match call {
        Call::InsertNamed(key, value) => insert_named(alloc, state, at, key, value),
        Call::InsertKept(key, value) => insert_kept(alloc, state, at, key, value),
        Call::OrInsert(key, value, answer) => or_insert(alloc, state, at, key, value, answer),
        Call::Begin(kind, key, start) => begin(state, at, kind, key, start),
        Call::BeginInHalves(kind, key, start) => {
            begin_in_halves(alloc, state, at, kind, key, start)
        }
        Call::Finish(number, value, answer) => {
            let made: Made<u64, ()> = Made::Value(value);
            match state.finish(number, made, at) {
                Ok(()) => Ok(answer == Ok(())),
                Err((CacheError::OutOfMemory, _)) => Err(CacheError::OutOfMemory),
                Err((refused, _)) => Ok(answer == Err(refused)),
            }
        }
        Call::Abandon(number, answer) => Ok(state.abandon(number, at) == answer),
        Call::IsFree(kind, key, is_free) => Ok(state.is_turn_free(kind, &key) == is_free),
        _ => Ok(false),
    }
}

fn or_insert<C>(
    alloc: Global,
    state: &mut Numbers<C>,
    at: At,
    key: u64,
    value: u64,
    answer: (u64, bool),
) -> Result<bool, CacheError>
    requires { ComesAfter at.now at.step state.old }
{
    let hash = state.hash(&key);
    let name = OwnedKey { key, alloc };
    let made: (Made<u64, ()>, bool) = state.coalesce(
        name,
        hash,
        at,
        |_| false,
        || -> Result<Made<u64, ()>, AllocError> { Ok(Made::Value(value)) },
    )?;
    Ok(made == (Made::Value(answer.0), answer.1))
}

fn insert_named<C>(
    alloc: Global,
    state: &mut Numbers<C>,
    at: At,
    key: u64,
    value: u64,
) -> Result<bool, CacheError>
    requires { ComesAfter at.now at.step state.old }
{
    let hash = state.hash(&key);
    let name = ClonedKey { key: &key, alloc };
    state.insert_with_hash(name, hash, value, at)?;
    Ok(true)
}

fn insert_kept<C>(
    alloc: Global,
    state: &mut Numbers<C>,
    at: At,
    key: u64,
    value: u64,
) -> Result<bool, CacheError>
    requires { ComesAfter at.now at.step state.old }
{
    let hash = state.hash(&key);
    state.insert_named(ClonedKey { key: &key, alloc }, hash, value, at)?;
    Ok(true)
}

fn begin_in_halves<C>(
    alloc: Global,
    state: &mut Numbers<C>,
    at: At,
    kind: TurnKind,
    key: u64,
    start: Start,
) -> Result<bool, CacheError>
    requires { ComesAfter at.now at.step state.old }
{
    let At { now, step } = at;
    let hash = state.hash(&key);
    let name = LentKey { key: &key };
    match state.get_unless(&name, hash, At { now, step }, |value: &u64| *value == 0)? {
        (_, Some(value)) => Ok(start == Start::Found(value)),
        (ignored, None) => {
            let name = OwnedKey { key, alloc };
            let answer = state.begin_missed(kind, name, hash, At { now, step }, ignored)?;
            Ok(start_of(answer) == start)
        }
    }
}

fn begin<C>(
    state: &mut Numbers<C>,
    at: At,
    kind: TurnKind,
    key: u64,
    start: Start,
) -> Result<bool, CacheError>
    requires { ComesAfter at.now at.step state.old }
{
    let answer = state.begin(kind, key, at)?;
    Ok(start_of(answer) == start)
}

/// The key of the oldest notice, if that is of this cause.
fn told<C>(state: &mut Numbers<C>, cause: RemovalCause) -> Option<u64> {
    match state.next_notice() {
        Some(notice) if notice.cause == cause => Some(*notice.key),
        _ => None,
    }
}

/// Whether the oldest notice of a key's part is of this key and cause, or there is none.
fn is_told_of_part<C>(
    state: &mut Numbers<C>,
    key: u64,
    expected: Option<(u64, RemovalCause)>,
) -> bool {
    let part = state.part(&key);
    match state.next_notice_of_part(part) {
        Some(notice) => expected == Some((*notice.key, notice.cause)),
        None => expected.is_none(),
    }
}

fn are_told<C>(state: &mut Numbers<C>, first: u64, second: u64, cause: RemovalCause) -> bool {
    match (told(state, cause), told(state, cause)) {
        (Some(key), Some(next)) => {
            (key, next) == (first, second) || (key, next) == (second, first)
        }
        _ => false,
    }
}

/// The calls of both forms.
fn perform<C>(alloc: Global, state: &mut Numbers<C>, at: At, call: Call) -> Result<bool, CacheError>
    requires follows { ComesAfter at.now at.step state.old }
    requires rises { state.old.step < at.step }
{
    match call {
        Call::Has(..)
        | Call::Peek(..)
        | Call::Held(..)
        | Call::Visible(..)
        | Call::Gives(..)
        | Call::LookUp(..)
        | Call::RefusedLookUp(..) => { Ok(perform_lent(state, at, call)) }
        Call::Get(..)
        | Call::Insert(..)
        | Call::Remove(..)
        | Call::Invalidate(..)
        | Call::Clear
        | Call::Run
        | Call::TryRun
        | Call::Count(..) => { perform_simple(state, at, call) }
        Call::With(closure) => perform_closure(state, at, closure),
        Call::Told(key, cause) => Ok(told(state, cause) == Some(key)),
        Call::ToldOf(cause) => Ok(told(state, cause).is_some()),
        Call::ToldBoth(first, second, cause) => Ok(are_told(state, first, second, cause)),
        Call::ToldOfPart(key, expected) => Ok(is_told_of_part(state, key, expected)),
        Call::NoneTold => Ok(state.next_notice().is_none()),
        _ => perform_turn(alloc, state, at, call),
    }
}

/// What comes of a predicate, and was to come of it.
fn is_covered(
    covered: Result<(), CacheError>,
    answer: Result<(), CacheError>,
) -> Result<bool, CacheError> {
    match covered {
        Err(CacheError::OutOfMemory) => Err(CacheError::OutOfMemory),
        covered => Ok(covered == answer),
    }
}

/// A cache that calls are played on.
pub trait Played {
    /// Makes a call at a moment, or at the last one where that is later, and returns whether it answers what it is to.
    fn play(&mut self, alloc: Global, nanos: u64, call: Call) -> Result<bool, CacheError>;
}

impl Played for Numbers<Single> {
    fn play(&mut self, alloc: Global, nanos: u64, call: Call) -> Result<bool, CacheError> {
        let Some(at) = next(self, nanos) else {
            return Ok(false);
        };
        match call {
            Call::Cover(first, second, zeros, answer) => {
                let covers = IsEither(first, second);
                let covered = self.invalidate_entries_if(covers, &mut Turning(zeros), at);
                is_covered(covered.map(|_id| ()), answer)
            }
            _ => perform(alloc, self, at, call),
        }
    }
}

impl Played for Numbers<Segmented> {
    fn play(&mut self, alloc: Global, nanos: u64, call: Call) -> Result<bool, CacheError> {
        let Some(at) = next(self, nanos) else {
            return Ok(false);
        };
        match call {
            Call::Cover(first, second, zeros, answer) => {
                let covers = IsEither(first, second);
                let covered = self.invalidate_entries_if(covers, &mut Turning(zeros), at);
                is_covered(covered, answer)
            }
            Call::With(Closure::Try(key, made, answer)) => {
                attempt_in_segments(self, at, key, made, answer)
            }
            _ => perform(alloc, self, at, call),
        }
    }
}

/// Whether a call answers what it is to. Where it was refused for memory it is made once more.
fn is_right<T: Played>(alloc: Global, state: &mut T, nanos: u64, call: Call) -> bool {
    match state.play(alloc, nanos, call) {
        Ok(is_right) => is_right,
        Err(_) => state.play(alloc, nanos, call) == Ok(true),
    }
}

/// Whether so many keys are inserted, each followed by a run.
fn inserts_and_runs<T: Played>(alloc: Global, state: &mut T, nanos: u64, keys: u64) -> bool {
    for key in 0..keys {
        if !is_right(alloc, state, nanos, Call::Insert(key, key))
            || !is_right(alloc, state, nanos, Call::Run)
        {
            return false;
        }
    }
    true
}

/// The same, each at the moment of its number, with a value of its own.
fn inserts_each<T: Played>(alloc: Global, state: &mut T, keys: u64) -> bool {
    for key in 0..keys {
        if !is_right(alloc, state, key, Call::Insert(key, key ^ 64)) {
            return false;
        }
    }
    true
}

/// The same of their removal.
fn invalidates_each<T: Played>(alloc: Global, state: &mut T, nanos: u64, keys: u64) -> bool {
    for key in 0..keys {
        if !is_right(alloc, state, nanos, Call::Invalidate(key)) {
            return false;
        }
    }
    true
}

/// Whether so many notices are of this cause.
fn tells_each<T: Played>(
    alloc: Global,
    state: &mut T,
    nanos: u64,
    count: u64,
    cause: RemovalCause,
) -> bool {
    for _ in 0..count {
        if !is_right(alloc, state, nanos, Call::ToldOf(cause)) {
            return false;
        }
    }
    true
}

/// Whether a call answers what it is to, or each of several does.
fn comes_so<T: Played>(alloc: Global, state: &mut T, nanos: u64, call: Call) -> bool {
    match call {
        Call::InsertEachAndRun(keys) => inserts_and_runs(alloc, state, nanos, keys),
        Call::InsertEach(keys) => inserts_each(alloc, state, keys),
        Call::InvalidateEach(keys) => invalidates_each(alloc, state, nanos, keys),
        Call::ToldEach(count, cause) => tells_each(alloc, state, nanos, count, cause),
        call => is_right(alloc, state, nanos, call),
    }
}

/// The place of the first of these calls, each at its moment, that does not answer what it is to.
pub fn wrong_call<T: Played>(alloc: Global, state: &mut T, calls: &[(u64, Call)]) -> Option<usize> {
    for (place, (nanos, call)) in calls.iter().enumerate() {
        if !comes_so(alloc, state, *nanos, *call) {
            return Some(place);
        }
    }
    None
}

/// An empty cache in segments, made once more where memory was refused.
pub fn empty_cache(alloc: Global, form: Form) -> Option<Numbers> {
    match numbers(alloc, form) {
        Ok(state) => Some(state),
        Err(_) => numbers(alloc, form).ok(),
    }
}

/// An empty cache of one part, made once more where memory was refused.
fn empty_single(alloc: Global, form: Form) -> Option<Numbers<Single>> {
    match single(alloc, form) {
        Ok(state) => Some(state),
        Err(_) => single(alloc, form).ok(),
    }
}

/// Calls on an empty cache of a form.
#[derive(Clone, Copy)]
pub struct Case<'a> {
    pub form: Form,
    pub calls: &'a [(u64, Call)],
}

/// The place of the first of these calls on a new cache that does not answer what it is to; the first where none can be made.
fn wrong_call_on<T: Played + Drop>(
    alloc: Global,
    made: Option<T>,
    calls: &[(u64, Call)],
) -> Option<usize> {
    match made {
        Some(mut state) => wrong_call(alloc, &mut state, calls),
        None => Some(0),
    }
}

/// The same of a case, on a cache in segments, one or more.
fn wrong_in_segments(alloc: Global, case: Case<'_>) -> Option<usize> {
    wrong_call_on(alloc, empty_cache(alloc, case.form), case.calls)
}

/// The same of a case, on a cache of one part or in segments as its form says.
fn wrong_call_of(alloc: Global, case: Case<'_>) -> Option<usize> {
    if case.form.segments == 1 {
        wrong_call_on(alloc, empty_single(alloc, case.form), case.calls)
    } else {
        wrong_in_segments(alloc, case)
    }
}

/// Whether a case comes out right, also in one segment.
pub fn is_right_in_segments(alloc: Global, case: Case<'_>) -> bool {
    wrong_call_of(alloc, case).is_none() && wrong_in_segments(alloc, case).is_none()
}

/// The place of the first case that does not come out right, and of its first call that does not.
fn first_wrong(alloc: Global, cases: &[Case<'_>]) -> Option<(usize, usize)> {
    for (place, case) in cases.iter().enumerate() {
        if let Some(call) = wrong_call_of(alloc, *case) {
            return Some((place, call));
        }
    }
    None
}

/// Stops a test where there is a place of what is wrong in its table, and says it.
pub fn none_wrong(rt: &impl Abort, wrong: Option<usize>) {
    assert_eq!(rt; wrong, None);
}

/// Each case comes out right.
pub fn all_right(rt: &impl Abort, alloc: Global, cases: &[Case<'_>]) {
    assert_eq!(rt; first_wrong(alloc, cases), None);
}
