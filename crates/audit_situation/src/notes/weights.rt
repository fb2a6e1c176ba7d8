//! What parts weigh.
ghost use Rattle.std.specs.Prelude.{◌≡◌, ℕ, ◌+◌, ◌-◌, ◌/◌, ◌≤◌, ◌<◌, ◌==◌, nat_lt, Some, IfOk, map, get_or, false};
ghost use Rattle.std.specs.List.{find};
ghost use Rattle.std.specs.Option.{option_map, option_map_or};
ghost use Rattle.audit_model.specs.Bytewise.{same};
ghost use Rattle.audit_model.specs.History.{part_count, share};
ghost use Rattle.audit_model.specs.Notes.{is_over, just_accepted};
ghost use Rattle.audit_situation.specs.Held.Seeing.{held_of};
ghost use Rattle.audit_situation.specs.Held.Weights.{weight_if_in, weight_of_part, values_of};
ghost use Rattle.audit_situation.specs.Notes.Weights.{IsShare, AreOverfilled, AreOverfilledBy};

use crate::held::{Held, Holding, Seen};
use audit_model::Config;
use std::alloc::{AllocError, Global};

/// The maximum number of parts.
pub const PARTS: usize = 256;

/// Returns the number of parts, 1 to 256: the configured one, rounded up to a power of two.
pub fn part_count(config: &Config) -> u64
    ensures count { result ≡ part_count config.now }
    ensures small { result ≤ 256 }
    ensures some { 1 ≤ result }
{
    let parts = config.parts;
    if parts <= 1 {
        1
    } else if parts <= 2 {
        2
    } else if parts <= 4 {
        4
    } else if parts <= 8 {
        8
    } else if parts <= 16 {
        16
    } else if parts <= 32 {
        32
    } else if parts <= 64 {
        64
    } else if parts <= 128 {
        128
    } else {
        256
    }
}

/// A part's share of the capacity, rounded up.
fn share(config: &Config, capacity: u64) -> u128
    ensures { result ≡ share config.now capacity }
{
    let parts = u128::from(part_count(config));
    (u128::from(capacity) + (parts - 1)) / parts
}

/// Returns a part's share of the capacity. Without a capacity the result means nothing.
pub fn limit_of(config: &Config) -> u128
    ensures { IsShare config.now result }
{
    match config.capacity {
        Some(capacity) => share(config, capacity),
        None => 0,
    }
}

/// Returns whether the values of a part weigh more than its share.
pub fn is_over(config: &Config, limit: u128, held: &Holding, part: usize) -> bool
    requires { IsShare config.now limit }
    ensures { result ≡ is_over config.now part (values_of held.now) }
{
    match config.capacity {
        Some(_) => limit < held.weight_of(part),
        None => false,
    }
}

/// What a held value weighs in a part, if there is one.
fn weight_seen(held: Option<Seen<'_>>, part: usize) -> u64
    ensures { result ≡ option_map_or (weight_if_in part) (option_map held_of held.entry) 0 }
{
    match held {
        Some(held) => {
            if held.part == part as u64 {
                held.weight
            } else {
                0
            }
        }
        None => 0,
    }
}

/// What the values of a part weigh once the newcomer has replaced the older value of its key.
fn weight_with(
    held: &Holding,
    older: Option<Seen<'_>>,
    newcomer: &Held,
    part: usize,
) -> Result<u128, AllocError>
    requires { option_map held_of older
        ≡ find (λ h. same newcomer.now.value.key h.value.key) held.now }
    ensures { IfOk result (λ weight. weight
        ≡ weight_of_part part (just_accepted (values_of held.now) (Some newcomer.now.value))) }
{
    let own = weight_seen(Some(newcomer.see()), part);
    let left = held.weight_of(part) - u128::from(weight_seen(older, part));
    match left.checked_add(u128::from(own)) {
        Some(weight) => Ok(weight),
        None => Err(AllocError),
    }
}

/// Which parts exceed their share once the newcomer has replaced the older value of its key, if there is a capacity.
fn overfilled_by(
    alloc: Global,
    limit: u128,
    held: &Holding,
    newcomer: &Held,
) -> Result<Vec<bool>, AllocError>
    ensures { IfOk result
        (λ marks. (part : ℕ) → part < 256 → get_or marks.items part false ≡ nat_lt limit
        (weight_of_part part (just_accepted (values_of held.now) (Some newcomer.now.value)))) }
{
    let older = held.get(newcomer.key());
    let mut marks = Vec::with_capacity(alloc, PARTS)?;
    for part in 0..PARTS {
        let weight = weight_with(held, older, newcomer, part)?;
        marks.push(limit < weight)?;
    }
    Ok(marks)
}

/// Returns which parts exceed their share right after a step has accepted the newcomer, if there is one. Returns an error if there is not
/// enough memory.
pub fn overfilled(
    alloc: Global,
    config: &Config,
    held: &Holding,
    newcomer: Option<&Held>,
) -> Result<Vec<bool>, AllocError>
    ensures { IfOk result (λ marks. AreOverfilledBy config.now held.now
        (option_map (λ h. h.now) newcomer.entry) marks.items) }
{
    match newcomer {
        Some(newcomer) => overfilled_with(alloc, config, held, newcomer),
        None => Ok(Vec::new(alloc)),
    }
}

/// The same if there is a capacity.
fn overfilled_with(
    alloc: Global,
    config: &Config,
    held: &Holding,
    newcomer: &Held,
) -> Result<Vec<bool>, AllocError>
    ensures { IfOk result (λ marks. (part : ℕ) → part < 256 → get_or marks.items part false
        ≡ is_over config.now part (just_accepted (values_of held.now) (Some newcomer.now.value))) }
{
    match config.capacity {
        Some(_) => overfilled_by(alloc, limit_of(config), held, newcomer),
        None => Ok(Vec::new(alloc)),
    }
}
