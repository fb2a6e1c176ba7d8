//! Look-ups by what names a key.
use moka::{BytesName, CacheError, CacheState, HashedName, Instant, NewState, TextName, next_call};
use std::alloc::Global;
use std::hash::Hash;

/// The moment of each call.
fn now() -> Instant {
    Instant::from_nanos(0)
}

/// Inserts a value.
fn insert<K: Eq + Hash + Drop>(
    cache: &mut CacheState<K, u64>,
    key: K,
    value: u64,
) -> Result<(), CacheError> {
    let at = next_call(cache, now())?;
    cache.insert(key, value, at)
}

/// The value of what is named.
fn get<K: Eq + Hash + Drop, Q: HashedName<K>>(
    cache: &mut CacheState<K, u64>,
    name: &Q,
) -> Result<Option<u64>, CacheError> {
    let at = next_call(cache, now())?;
    cache.get_by_name(name, at)
}

/// The last value of what is named, which is removed.
fn remove<K: Eq + Hash + Drop, Q: HashedName<K>>(
    cache: &mut CacheState<K, u64>,
    name: &Q,
) -> Result<Option<u64>, CacheError> {
    let at = next_call(cache, now())?;
    cache.remove_by_name(name, at)
}

/// Invalidates what is named.
fn invalidate<K: Eq + Hash + Drop, Q: HashedName<K>>(
    cache: &mut CacheState<K, u64>,
    name: &Q,
) -> Result<(), CacheError> {
    let at = next_call(cache, now())?;
    cache.invalidate_by_name(name, at)
}

/// Whether what is named has this value, if any.
fn shows<K: Eq + Hash + Drop, Q: HashedName<K>>(
    cache: &mut CacheState<K, u64>,
    name: &Q,
    value: Option<u64>,
) -> bool {
    cache.contains_key_by_name(name, now()) == value.is_some() && get(cache, name) == Ok(value)
}

/// Whether a value that is named is given by its removal, or goes untold by its invalidation.
fn leaves<K: Eq + Hash + Drop, Q: HashedName<K>>(
    cache: &mut CacheState<K, u64>,
    name: &Q,
    is_told: bool,
) -> bool {
    if is_told {
        remove(cache, name) == Ok(Some(3))
    } else {
        invalidate(cache, name) == Ok(())
    }
}

/// Whether a name finds its key until that is gone, and another finds none.
fn finds<K: Eq + Hash + Drop, Q: HashedName<K>>(
    cache: &mut CacheState<K, u64>,
    name: &Q,
    other: &Q,
    is_told: bool,
) -> bool {
    shows(cache, name, Some(3))
        && shows(cache, other, None)
        && remove(cache, other) == Ok(None)
        && leaves(cache, name, is_told)
        && shows(cache, name, None)
}

/// Whether the price of an article is found by the article's name, and by no other.
fn finds_price<K: Eq + Hash + Drop, Q: HashedName<K>>(
    alloc: Global,
    article: K,
    name: &Q,
    other: &Q,
    is_told: bool,
) -> Result<bool, CacheError> {
    let Ok(mut prices) = CacheState::<K, u64>::new(alloc, 100, now()) else {
        return Err(CacheError::OutOfMemory);
    };
    let inserted = insert(&mut prices, article, 3);
    Ok(inserted == Ok(()) && finds(&mut prices, name, other, is_told))
}

/// Whether a price is found by the text of its article, until it is removed.
fn texts_name(alloc: Global) -> Result<bool, CacheError> {
    let article = String::from_str(alloc, "pear")?;
    finds_price(
        alloc,
        article,
        &TextName::new("pear"),
        &TextName::new("pea"),
        true,
    )
}

/// Whether a price is found by the bytes of its article, until it is invalidated.
fn bytes_name(alloc: Global) -> Result<bool, CacheError> {
    let article = Vec::from_slice(alloc, &[1, 2])?;
    finds_price(
        alloc,
        article,
        &BytesName::new(&[1, 2]),
        &BytesName::new(&[1]),
        false,
    )
}

#[test]
fn names_find_their_keys(rt: HostRuntime) {
    let alloc = rt.alloc();
    assert!(rt; texts_name(alloc) == Ok(true) || texts_name(alloc) == Ok(true));
    assert!(rt; bytes_name(alloc) == Ok(true) || bytes_name(alloc) == Ok(true));
}
