//! Calls with closures.
ghost use Rattle.front_reference.specs.Fronts.{ComesAfter};

use crate::playing::script::{Closure, Done, Numbers};
use crate::playing::selecting::perform_select;
use front_parts::{CompResult, Entry};
use front_reference::{At, CacheError, Op, TurnKind};

/// One call with a closure.
pub(crate) fn perform_closure<C>(
    state: &mut Numbers<C>,
    at: At,
    call: Closure,
) -> Result<bool, CacheError>
    requires { ComesAfter at.now at.step state.old }
{
    match call {
        Closure::GetWith(..)
        | Closure::GetWithIf(..)
        | Closure::Optionally(..)
        | Closure::Try(..) => { perform_get(state, at, call) }
        Closure::CountUp(..) | Closure::TakeOut(..) | Closure::Upsert(..) => {
            perform_compute(state, at, call)
        }
        Closure::Select(key, call) => perform_select(state, at, key, call),
        Closure::OrInsert(key, value, answer) => or_insert(state, at, key, value, answer),
        Closure::OrInsertIf(key, old, value, answer) => {
            or_insert_if(state, at, key, old, value, answer)
        }
    }
}

fn perform_get<C>(state: &mut Numbers<C>, at: At, call: Closure) -> Result<bool, CacheError>
    requires { ComesAfter at.now at.step state.old }
{
    match call {
        Closure::GetWith(key, made, answer) => get_with(state, at, key, made, answer),
        Closure::GetWithIf(key, old, made, answer) => get_with_if(
            state, at, key, old, made, answer,
        ),
        Closure::Optionally(key, made, answer) => optionally(state, at, key, made, answer),
        Closure::Try(key, made, answer) => attempt(state, at, key, made, answer),
        _ => Ok(false),
    }
}

fn perform_compute<C>(state: &mut Numbers<C>, at: At, call: Closure) -> Result<bool, CacheError>
    requires { ComesAfter at.now at.step state.old }
{
    match call {
        Closure::CountUp(key, done) => count_up(state, at, key, done),
        Closure::TakeOut(key, done) => take_out(state, at, key, done),
        Closure::Upsert(key, value, answer) => upsert(state, at, key, value, answer),
        _ => Ok(false),
    }
}

fn get_with<C>(
    state: &mut Numbers<C>,
    at: At,
    key: u64,
    made: u64,
    answer: u64,
) -> Result<bool, CacheError>
    requires { ComesAfter at.now at.step state.old }
{
    if !state.is_turn_free(TurnKind::With, &key) {
        return Ok(false);
    }
    let value = state.get_with_by_ref(&key, || made, at)?;
    Ok(value == answer)
}

fn get_with_if<C>(
    state: &mut Numbers<C>,
    at: At,
    key: u64,
    old: u64,
    made: u64,
    answer: u64,
) -> Result<bool, CacheError>
    requires { ComesAfter at.now at.step state.old }
{
    if !state.is_turn_free(TurnKind::With, &key) {
        return Ok(false);
    }
    let value = state.get_with_if(key, || made, |value: &u64| *value == old, at)?;
    Ok(value == answer)
}

fn optionally<C>(
    state: &mut Numbers<C>,
    at: At,
    key: u64,
    made: Option<u64>,
    answer: Option<u64>,
) -> Result<bool, CacheError>
    requires { ComesAfter at.now at.step state.old }
{
    if !state.is_turn_free(TurnKind::Optionally, &key) {
        return Ok(false);
    }
    let value = state.optionally_get_with(key, || made, at)?;
    Ok(value == answer)
}

fn attempt<C>(
    state: &mut Numbers<C>,
    at: At,
    key: u64,
    made: Result<u64, ()>,
    answer: Result<u64, ()>,
) -> Result<bool, CacheError>
    requires { ComesAfter at.now at.step state.old }
{
    if !state.is_turn_free(TurnKind::Try, &key) {
        return Ok(false);
    }
    match state.try_get_with(key, || made, at)? {
        Ok(value) => Ok(answer == Ok(value)),
        Err(_fault) => Ok(answer == Err(())),
    }
}

/// The same by the call that only segments have.
pub(crate) fn attempt_in_segments(
    state: &mut Numbers,
    at: At,
    key: u64,
    made: Result<u64, ()>,
    answer: Result<u64, ()>,
) -> Result<bool, CacheError>
    requires { ComesAfter at.now at.step state.old }
{
    if !state.is_turn_free(TurnKind::Try, &key) {
        return Ok(false);
    }
    match state.get_or_try_insert_with(key, || made, at)? {
        Ok(value) => Ok(answer == Ok(value)),
        Err(_fault) => Ok(answer == Err(())),
    }
}

fn or_insert<C>(
    state: &mut Numbers<C>,
    at: At,
    key: u64,
    value: u64,
    answer: (u64, bool),
) -> Result<bool, CacheError>
    requires { ComesAfter at.now at.step state.old }
{
    let entry = state.entry(key, at).or_insert(value)?;
    Ok(*entry.key() == key && *entry.value() == answer.0 && entry.is_fresh() == answer.1)
}

fn or_insert_if<C>(
    state: &mut Numbers<C>,
    at: At,
    key: u64,
    old: u64,
    value: u64,
    answer: (u64, bool, bool),
) -> Result<bool, CacheError>
    requires { ComesAfter at.now at.step state.old }
{
    if !state.is_turn_free(TurnKind::With, &key) {
        return Ok(false);
    }
    let entry = state
        .entry(key, at)
        .or_insert_with_if(move || value, move |value: &u64| *value == old)?;
    Ok(is_entry(&entry, key, answer))
}

/// Whether an entry is of a key, with this value, so fresh, and so replacing.
fn is_entry(entry: &Entry<u64, u64>, key: u64, answer: (u64, bool, bool)) -> bool {
    *entry.key() == key
        && *entry.value() == answer.0
        && entry.is_fresh() == answer.1
        && entry.is_old_value_replaced() == answer.2
}

fn upsert<C>(
    state: &mut Numbers<C>,
    at: At,
    key: u64,
    value: u64,
    answer: (bool, bool),
) -> Result<bool, CacheError>
    requires { ComesAfter at.now at.step state.old }
{
    if !state.is_turn_free(TurnKind::Compute, &key) {
        return Ok(false);
    }
    let entry = state
        .entry_by_ref(&key, at)?
        .and_upsert_with(move |_seen: Option<Entry<u64, u64>>| value)?;
    Ok(is_entry(&entry, key, (value, answer.0, answer.1)))
}

/// Counts to 2, and then removes.
fn next_count(seen: Option<Entry<u64, u64>>) -> Op<u64> {
    match seen {
        Some(entry) => {
            let count = entry.into_value();
            if count < 2 {
                Op::Put(count + 1)
            } else {
                Op::Remove
            }
        }
        None => Op::Put(1),
    }
}

fn count_up<C>(state: &mut Numbers<C>, at: At, key: u64, done: Done) -> Result<bool, CacheError>
    requires { ComesAfter at.now at.step state.old }
{
    if !state.is_turn_free(TurnKind::Compute, &key) {
        return Ok(false);
    }
    let answer = state
        .entry(key, at)
        .and_compute_with(|seen: Option<Entry<u64, u64>>| next_count(seen))?;
    Ok(done_of(answer) == done)
}

fn take_out<C>(state: &mut Numbers<C>, at: At, key: u64, done: Done) -> Result<bool, CacheError>
    requires { ComesAfter at.now at.step state.old }
{
    if !state.is_turn_free(TurnKind::Compute, &key) {
        return Ok(false);
    }
    let answer = state.entry(key, at).and_compute_with(|seen: Option<Entry<u64, u64>>| -> Op<u64> {
        match seen {
            Some(_) => Op::Nop,
            None => Op::Remove,
        }
    })?;
    Ok(done_of(answer) == done)
}

fn done_of(done: CompResult<u64, u64>) -> Done {
    match done {
        CompResult::StillNone(_) => Done::StillNone,
        CompResult::Unchanged(entry) => Done::Unchanged(entry.into_value()),
        CompResult::Inserted(entry) => Done::Inserted(entry.into_value()),
        CompResult::ReplacedWith(entry) => Done::ReplacedWith(entry.into_value()),
        CompResult::Removed(entry) => Done::Removed(entry.into_value()),
    }
}
