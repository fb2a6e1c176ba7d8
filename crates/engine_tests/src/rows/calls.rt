//! The calls of the rows. One that is refused for memory is made once more, and has changed
//! nothing.
use crate::rows::generators::Repeating;
use crate::rows::rules::{Numbers, ValueIs};
use crate::rows::script::Look;
use crate::rows::values::Brittle;
use moka_engine::Refusal;
use policy_base::Instant;
use std::alloc::AllocError;

/// A key that was removed: its value, and the ticket of the removal.
type Removed = Result<Option<(u32, u64)>, Refusal>;

fn put_once(
    cache: &mut Numbers,
    key: u32,
    value: u32,
    now: Instant,
    step: u64,
) -> Result<u64, Refusal> {
    cache.reserve_write()?;
    let value = Brittle { number: value };
    let hash = cache.hash(&key);
    Ok(cache.do_insert_with_hash(key, hash, value, now, step))
}

/// Writes a value, and returns the ticket.
pub fn put(
    cache: &mut Numbers,
    key: u32,
    value: u32,
    now: Instant,
    step: u64,
) -> Result<u64, Refusal> {
    match put_once(cache, key, value, now, step) {
        Err(Refusal::OutOfMemory) => put_once(cache, key, value, now, step),
        answer => answer,
    }
}

/// Whether a value is written and its write sent.
pub fn puts(cache: &mut Numbers, key: u32, value: u32, now: Instant, step: u64) -> bool {
    match put(cache, key, value, now, step) {
        Ok(ticket) => cache.send(ticket) == Ok(()),
        Err(_) => false,
    }
}

fn remove_once(cache: &mut Numbers, key: u32, now: Instant) -> Removed {
    let hash = cache.hash(&key);
    match cache.remove_entry(&key, hash, 0)? {
        Some((entry, ticket)) => {
            let value = entry.value.number;
            cache.notify_invalidate(&key, entry, now);
            Ok(Some((value, ticket)))
        }
        None => Ok(None),
    }
}

/// Removes a key, and reports its entry.
pub fn remove(cache: &mut Numbers, key: u32, now: Instant) -> Removed {
    match remove_once(cache, key, now) {
        Err(Refusal::OutOfMemory) => remove_once(cache, key, now),
        answer => answer,
    }
}

fn remove_in_halves_once(cache: &mut Numbers, key: u32, now: Instant) -> Removed {
    let hash = cache.hash(&key);
    match cache.prepare_removal(&key, hash)? {
        Some(parts) => match cache.remove_reserved(&key, hash, parts) {
            Some((entry, ticket)) => {
                let value = entry.value.number;
                cache.notify_invalidate(&key, entry, now);
                Ok(Some((value, ticket)))
            }
            None => Ok(None),
        },
        None => Ok(None),
    }
}

/// The same in two halves.
pub fn remove_in_halves(cache: &mut Numbers, key: u32, now: Instant) -> Removed {
    match remove_in_halves_once(cache, key, now) {
        Err(Refusal::OutOfMemory) => remove_in_halves_once(cache, key, now),
        answer => answer,
    }
}

fn remove_at_once_once(
    cache: &mut Numbers,
    key: u32,
    now: Instant,
) -> Result<Option<u32>, Refusal> {
    let hash = cache.hash(&key);
    if !cache.can_send() {
        return Err(Refusal::UsedUp);
    }
    match cache.remove_with_hash(&key, hash, now)? {
        Some(value) => Ok(Some(value.number)),
        None => Ok(None),
    }
}

/// Removes a key and sends its removal, where all tickets were sent and there is room; elsewhere the answer is `UsedUp`.
pub fn remove_at_once(cache: &mut Numbers, key: u32, now: Instant) -> Result<Option<u32>, Refusal> {
    match remove_at_once_once(cache, key, now) {
        Err(Refusal::OutOfMemory) => remove_at_once_once(cache, key, now),
        answer => answer,
    }
}

fn forget_once(cache: &mut Numbers, key: u32, now: Instant) -> Result<bool, Refusal> {
    let hash = cache.hash(&key);
    if !cache.can_send() {
        return Err(Refusal::UsedUp);
    }
    cache.invalidate_with_hash(&key, hash, now)
}

/// The same without its value.
pub fn forget(cache: &mut Numbers, key: u32, now: Instant) -> Result<bool, Refusal> {
    match forget_once(cache, key, now) {
        Err(Refusal::OutOfMemory) => forget_once(cache, key, now),
        answer => answer,
    }
}

fn put_by_name_once(
    cache: &mut Numbers,
    key: u32,
    value: u32,
    now: Instant,
    step: u64,
) -> Result<(), Refusal> {
    let hash = cache.hash(&key);
    if !cache.can_send() {
        return Err(Refusal::UsedUp);
    }
    cache.insert_by_name(key, hash, Brittle { number: value }, now, step)
}

/// Writes a value by a name of its key, where all tickets were sent and there is room; elsewhere the answer is `UsedUp`.
pub fn put_by_name(
    cache: &mut Numbers,
    key: u32,
    value: u32,
    now: Instant,
    step: u64,
) -> Result<(), Refusal> {
    match put_by_name_once(cache, key, value, now, step) {
        Err(Refusal::OutOfMemory) => put_by_name_once(cache, key, value, now, step),
        answer => answer,
    }
}

/// Registers a predicate of a value, with identifiers of a generator of that word.
pub fn invalidate(cache: &mut Numbers, value: u32, step: u64, word: u32) -> Result<u128, Refusal> {
    let mut generator = Repeating(word);
    match cache.invalidate_entries_if(ValueIs(value), step, &mut generator) {
        Err(Refusal::OutOfMemory) => {
            cache.invalidate_entries_if(ValueIs(value), step, &mut generator)
        }
        answer => answer,
    }
}

fn invalidate_in_halves_once(
    cache: &mut Numbers,
    value: u32,
    step: u64,
    word: u32,
) -> Result<u128, Refusal> {
    let id = cache.prepare_predicate(&mut Repeating(word))?;
    cache.commit_predicate(id, ValueIs(value), step);
    Ok(id)
}

/// The same in two halves.
pub fn invalidate_in_halves(
    cache: &mut Numbers,
    value: u32,
    step: u64,
    word: u32,
) -> Result<u128, Refusal> {
    match invalidate_in_halves_once(cache, value, step, word) {
        Err(Refusal::OutOfMemory) => invalidate_in_halves_once(cache, value, step, word),
        answer => answer,
    }
}

fn invalidate_apart_once(
    cache: &mut Numbers,
    value: u32,
    step: u64,
    word: u32,
) -> Result<u128, Refusal> {
    cache.reserve_predicate()?;
    match cache.draw_predicate_id(&mut Repeating(word)) {
        Ok(id) => {
            cache.commit_predicate(id, ValueIs(value), step);
            Ok(id)
        }
        Err(refusal) => {
            cache.release_room();
            Err(refusal)
        }
    }
}

/// The same, with its room made before its identifier is drawn.
pub fn invalidate_apart(
    cache: &mut Numbers,
    value: u32,
    step: u64,
    word: u32,
) -> Result<u128, Refusal> {
    match invalidate_apart_once(cache, value, step, word) {
        Err(Refusal::OutOfMemory) => invalidate_apart_once(cache, value, step, word),
        answer => answer,
    }
}

fn give_up_once(cache: &mut Numbers, word: u32) -> Result<u128, Refusal> {
    let id = cache.prepare_predicate(&mut Repeating(word))?;
    cache.release_room();
    Ok(id)
}

/// Draws an identifier, and gives its room up.
pub fn give_up(cache: &mut Numbers, word: u32) -> Result<u128, Refusal> {
    match give_up_once(cache, word) {
        Err(Refusal::OutOfMemory) => give_up_once(cache, word),
        answer => answer,
    }
}

/// The number of a value that was found.
fn number_of(found: Result<Option<Brittle>, AllocError>) -> Result<Option<u32>, AllocError> {
    match found {
        Ok(Some(value)) => Ok(Some(value.number)),
        Ok(None) => Ok(None),
        Err(refused) => Err(refused),
    }
}

fn get(cache: &mut Numbers, key: u32, now: Instant) -> Result<Option<u32>, AllocError> {
    let hash = cache.hash(&key);
    number_of(cache.get_with_hash(&key, hash, now))
}

fn get_past(
    cache: &mut Numbers,
    key: u32,
    now: Instant,
    past: u32,
) -> Result<Option<u32>, AllocError> {
    let is_past = |value: &Brittle| value.number == past;
    let hash = cache.hash(&key);
    number_of(cache.get_with_hash_and_ignore_if(&key, hash, now, is_past))
}

fn get_unless(
    cache: &mut Numbers,
    key: u32,
    now: Instant,
    past: u32,
) -> Result<Option<u32>, AllocError> {
    let is_past = |value: &Brittle| value.number == past;
    let hash = cache.hash(&key);
    match cache.get_with_hash_unless(&key, hash, now, is_past) {
        Ok((is_passed_over, found)) => {
            if is_passed_over {
                Ok(None)
            } else {
                number_of(Ok(found))
            }
        }
        Err(refused) => Err(refused),
    }
}

fn look(cache: &Numbers, key: u32, now: Instant) -> Result<Option<u32>, AllocError> {
    let hash = cache.hash(&key);
    number_of(cache.get_with_hash_without_recording(&key, hash, now))
}

fn scan(cache: &Numbers, key: u32, now: Instant) -> Result<Option<u32>, AllocError> {
    number_of(cache.scanning_get(&key, now))
}

fn peek(cache: &Numbers, key: u32, now: Instant) -> Option<u32> {
    let hash = cache.hash(&key);
    match cache.peek(&key, hash, now) {
        Some(value) => Some(value.number),
        None => None,
    }
}

fn get_in_halves(cache: &mut Numbers, key: u32, now: Instant) -> Option<u32> {
    let hash = cache.hash(&key);
    let found = peek(cache, key, now);
    cache.note_look_up(&key, hash, now, false);
    found
}

fn held(cache: &Numbers, key: u32) -> Result<Option<u32>, AllocError> {
    let hash = cache.hash(&key);
    number_of(cache.held_value_with_hash(&key, hash))
}

/// What a look shows of a key.
pub fn shown(
    cache: &mut Numbers,
    by: Look,
    key: u32,
    now: Instant,
) -> Result<Option<u32>, AllocError> {
    match by {
        Look::Get => get(cache, key, now),
        Look::GetPast(past) => get_past(cache, key, now, past),
        Look::GetUnless(past) => get_unless(cache, key, now, past),
        Look::Peek => look(cache, key, now),
        Look::Scan => scan(cache, key, now),
        Look::Borrow => Ok(peek(cache, key, now)),
        Look::InHalves => Ok(get_in_halves(cache, key, now)),
        Look::Held => held(cache, key),
    }
}

/// Whether a key has a visible value.
pub fn contains(cache: &Numbers, key: u32, now: Instant) -> bool {
    let hash = cache.hash(&key);
    cache.contains_key_with_hash(&key, hash, now)
}

/// The key that is stored for a key.
pub fn stored_key(cache: &Numbers, key: u32) -> Result<Option<u32>, AllocError> {
    let hash = cache.hash(&key);
    cache.get_key_with_hash(&key, hash)
}
