//! What errors say.
use crate::playing::none_wrong;
use moka::{BuildError, CacheError};
use std::alloc::{AllocError, Global};
use std::fmt::Display;

const BUILD_ERRORS: [(BuildError, &str); 5] = [
    (
        BuildError::TimeToLiveTooLong,
        "time_to_live is longer than 1000 years",
    ),
    (
        BuildError::TimeToIdleTooLong,
        "time_to_idle is longer than 1000 years",
    ),
    (BuildError::NoSegments, "no segments"),
    (BuildError::TooManySegments, "too many segments"),
    (BuildError::OutOfMemory, "out of memory"),
];

const CACHE_ERRORS: [(CacheError, &str); 6] = [
    (CacheError::OutOfMemory, "out of memory"),
    (
        CacheError::InvalidationClosuresDisabled,
        "invalidation closures disabled",
    ),
    (CacheError::IdsInUse, "ids in use"),
    (CacheError::UsedUp, "used up"),
    (CacheError::UnknownTurn, "unknown turn"),
    (CacheError::Abandoned, "abandoned"),
];

fn has_text<E: Display>(alloc: Global, error: &E, text: &str) -> Result<bool, AllocError> {
    Ok(format!(in alloc; "{error}")?.as_str() == text)
}

/// Whether an error has its text, which is written once more if memory was refused.
fn says<E: Display>(alloc: Global, row: &(E, &str)) -> bool {
    has_text(alloc, &row.0, row.1) == Ok(true) || has_text(alloc, &row.0, row.1) == Ok(true)
}

/// The place of the first row of which that does not hold.
fn first_unsaid<E: Display>(alloc: Global, rows: &[(E, &str)]) -> Option<usize> {
    for (place, row) in rows.iter().enumerate() {
        if !says(alloc, row) {
            return Some(place);
        }
    }
    None
}

#[test]
fn errors_have_texts(rt: HostRuntime) {
    none_wrong(&rt, first_unsaid(rt.alloc(), BUILD_ERRORS.as_slice()));
    none_wrong(&rt, first_unsaid(rt.alloc(), CACHE_ERRORS.as_slice()));
}
