//! Calls of selectors, and calls that make a value by a key that is lent.
ghost use Rattle.front_reference.specs.Fronts.{ComesAfter};

use crate::playing::script::Numbers;
use front_parts::Entry;
use front_reference::{At, CacheError, Op, TurnKind};

/// A value, and whether it was made now.
type Shown = (u64, bool);

/// One call for a key, and what it is to answer.
#[derive(Clone, Copy)]
pub enum Select {
    /// `get_with` of this value.
    Get(u64, u64),
    /// `optionally_get_with_by_ref`.
    Optionally(Option<u64>, Option<u64>),
    /// `try_get_with_by_ref`.
    Try(Result<u64, ()>, Result<u64, ()>),
    /// `or_insert_with` of this value.
    OrInsertWith(u64, Shown),
    /// `or_default`.
    OrDefault(Shown),
    /// `or_optionally_insert_with`.
    OrOptionally(Option<u64>, Option<Shown>),
    /// `or_try_insert_with`.
    OrTry(Result<u64, ()>, Result<Shown, ()>),
    /// `and_try_compute_with` to this value, to what is there, or to a fault: the value that there
    /// is then.
    TryCompute(Result<Option<u64>, ()>, Result<Option<u64>, ()>),
    /// `and_compute_with` to this value, whose entry is unwrapped.
    Put(u64),
}

/// One such call.
pub(crate) fn perform_select<C>(
    state: &mut Numbers<C>,
    at: At,
    key: u64,
    call: Select,
) -> Result<bool, CacheError>
    requires { ComesAfter at.now at.step state.old }
{
    match call {
        Select::Get(made, answer) => get(state, at, key, made, answer),
        Select::Optionally(made, answer) => optionally(state, at, key, made, answer),
        Select::Try(made, answer) => attempt(state, at, key, made, answer),
        Select::TryCompute(decided, answer) => try_compute(state, at, key, decided, answer),
        Select::Put(value) => put(state, at, key, value),
        _ => perform_entry(state, at, key, call),
    }
}

fn perform_entry<C>(
    state: &mut Numbers<C>,
    at: At,
    key: u64,
    call: Select,
) -> Result<bool, CacheError>
    requires { ComesAfter at.now at.step state.old }
{
    match call {
        Select::OrInsertWith(made, answer) => or_insert_with(state, at, key, made, answer),
        Select::OrDefault(answer) => or_default(state, at, key, answer),
        Select::OrOptionally(made, answer) => or_optionally(state, at, key, made, answer),
        Select::OrTry(made, answer) => or_try(state, at, key, made, answer),
        _ => Ok(false),
    }
}

fn get<C>(
    state: &mut Numbers<C>,
    at: At,
    key: u64,
    made: u64,
    answer: u64,
) -> Result<bool, CacheError>
    requires { ComesAfter at.now at.step state.old }
{
    if !state.is_turn_free(TurnKind::With, &key) {
        return Ok(false);
    }
    let value = state.get_with(key, || made, at)?;
    Ok(value == answer)
}

fn optionally<C>(
    state: &mut Numbers<C>,
    at: At,
    key: u64,
    made: Option<u64>,
    answer: Option<u64>,
) -> Result<bool, CacheError>
    requires { ComesAfter at.now at.step state.old }
{
    if !state.is_turn_free(TurnKind::Optionally, &key) {
        return Ok(false);
    }
    let value = state.optionally_get_with_by_ref(&key, || made, at)?;
    Ok(value == answer)
}

fn attempt<C>(
    state: &mut Numbers<C>,
    at: At,
    key: u64,
    made: Result<u64, ()>,
    answer: Result<u64, ()>,
) -> Result<bool, CacheError>
    requires { ComesAfter at.now at.step state.old }
{
    if !state.is_turn_free(TurnKind::Try, &key) {
        return Ok(false);
    }
    match state.try_get_with_by_ref(&key, || made, at)? {
        Ok(value) => Ok(answer == Ok(value)),
        Err(_fault) => Ok(answer == Err(())),
    }
}

fn shown(entry: Entry<u64, u64>) -> Shown {
    (*entry.value(), entry.is_fresh())
}

fn or_insert_with<C>(
    state: &mut Numbers<C>,
    at: At,
    key: u64,
    made: u64,
    answer: Shown,
) -> Result<bool, CacheError>
    requires { ComesAfter at.now at.step state.old }
{
    if !state.is_turn_free(TurnKind::With, &key) {
        return Ok(false);
    }
    let entry = state.entry(key, at).or_insert_with(move || made)?;
    Ok(shown(entry) == answer)
}

fn or_default<C>(
    state: &mut Numbers<C>,
    at: At,
    key: u64,
    answer: Shown,
) -> Result<bool, CacheError>
    requires { ComesAfter at.now at.step state.old }
{
    let entry = state.entry(key, at).or_default()?;
    Ok(shown(entry) == answer)
}

fn or_optionally<C>(
    state: &mut Numbers<C>,
    at: At,
    key: u64,
    made: Option<u64>,
    answer: Option<Shown>,
) -> Result<bool, CacheError>
    requires { ComesAfter at.now at.step state.old }
{
    if !state.is_turn_free(TurnKind::Optionally, &key) {
        return Ok(false);
    }
    let entry = state
        .entry(key, at)
        .or_optionally_insert_with(move || made)?;
    Ok(entry.map(shown) == answer)
}

fn or_try<C>(
    state: &mut Numbers<C>,
    at: At,
    key: u64,
    made: Result<u64, ()>,
    answer: Result<Shown, ()>,
) -> Result<bool, CacheError>
    requires { ComesAfter at.now at.step state.old }
{
    if !state.is_turn_free(TurnKind::Try, &key) {
        return Ok(false);
    }
    match state.entry(key, at).or_try_insert_with(move || made)? {
        Ok(entry) => Ok(answer == Ok(shown(entry))),
        Err(_fault) => Ok(answer == Err(())),
    }
}

fn op_of(decided: Result<Option<u64>, ()>) -> Result<Op<u64>, ()> {
    match decided {
        Ok(Some(value)) => Ok(Op::Put(value)),
        Ok(None) => Ok(Op::Nop),
        Err(()) => Err(()),
    }
}

fn try_compute<C>(
    state: &mut Numbers<C>,
    at: At,
    key: u64,
    decided: Result<Option<u64>, ()>,
    answer: Result<Option<u64>, ()>,
) -> Result<bool, CacheError>
    requires { ComesAfter at.now at.step state.old }
{
    if !state.is_turn_free(TurnKind::Compute, &key) {
        return Ok(false);
    }
    let done = state
        .entry(key, at)
        .and_try_compute_with(move |_seen: Option<Entry<u64, u64>>| op_of(decided))?;
    match done {
        Ok(done) => Ok(answer == Ok(done.into_entry().map(|entry| entry.into_value()))),
        Err(()) => Ok(answer == Err(())),
    }
}

fn put<C>(state: &mut Numbers<C>, at: At, key: u64, value: u64) -> Result<bool, CacheError>
    requires { ComesAfter at.now at.step state.old }
{
    if !state.is_turn_free(TurnKind::Compute, &key) {
        return Ok(false);
    }
    let done = state
        .entry(key, at)
        .and_compute_with(move |_seen: Option<Entry<u64, u64>>| Op::Put(value))?;
    if done.is_still_none() {
        return Ok(false);
    }
    Ok(shown(done.unwrap()) == (value, true))
}
