//! What writes that wait show, and what errors say. The tests pass with any one allocation refused.
use moka_policy::{
    KeyHash, KvEntry, PushError, ReserveError, ScheduleError, Stale, StaleTimer, UsedUp,
    ValueEntry, WriteOp,
};
use std::alloc::{AllocError, Global};
use std::fmt::{Debug, Display};
use std::sync::Arc;

fn shows<T: Debug>(alloc: Global, shown: &T, text: &str) -> Result<bool, AllocError> {
    Ok(format!(in alloc; "{shown:?}")?.as_str() == text)
}

/// A write of this key: a removal, or an upsert.
fn write(key: Arc<u8>, removes: bool) -> WriteOp<u8, u8> {
    if removes {
        WriteOp::Remove {
            kv_entry: KvEntry::new(key, ValueEntry::new(5, 0)),
            entry_gen: 1,
        }
    } else {
        WriteOp::Upsert {
            key_hash: KeyHash::new(key, 7),
            entry: 0,
            entry_gen: 1,
            old_weight: 1,
            new_weight: 2,
        }
    }
}

/// Whether a write is shown by this word.
fn is_shown(alloc: Global, removes: bool, word: &str) -> Result<bool, AllocError> {
    shows(alloc, &write(Arc::new(alloc, 1u8)?, removes), word)
}

/// The same, on the second attempt if memory is refused.
fn shows_word(alloc: Global, removes: bool, word: &str) -> bool {
    is_shown(alloc, removes, word) == Ok(true) || is_shown(alloc, removes, word) == Ok(true)
}

#[test]
fn writes_show_their_words(rt: HostRuntime) {
    assert!(rt; shows_word(rt.alloc(), false, "Upsert") && shows_word(rt.alloc(), true, "Remove"));
}

fn has_text<E: Display>(alloc: Global, error: &E, text: &str) -> Result<bool, AllocError> {
    Ok(format!(in alloc; "{error}")?.as_str() == text)
}

/// Whether an error has its text, which is written once more if memory was refused.
fn says<E: Display>(alloc: Global, error: &E, text: &str) -> bool {
    has_text(alloc, error, text) == Ok(true) || has_text(alloc, error, text) == Ok(true)
}

#[test]
fn refused_pushes_have_texts(rt: HostRuntime) {
    assert!(rt;
        says(rt.alloc(), &PushError::OutOfMemory(7u64), "out of memory")
            && says(rt.alloc(), &PushError::UsedUp(7u64), "used up")
            && says(rt.alloc(), &ReserveError::OutOfMemory, "out of memory")
            && says(rt.alloc(), &ReserveError::UsedUp, "used up")
    );
}

#[test]
fn other_errors_have_texts(rt: HostRuntime) {
    assert!(rt;
        says(rt.alloc(), &ScheduleError::OutOfMemory, "out of memory")
            && says(rt.alloc(), &ScheduleError::UsedUp, "used up")
            && says(rt.alloc(), &Stale, "stale")
            && says(rt.alloc(), &StaleTimer, "stale timer")
            && says(rt.alloc(), &UsedUp, "used up")
    );
}
