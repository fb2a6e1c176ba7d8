//! The iterator.
ghost use Rattle.std.specs.Prelude.{◌≡◌, ◌<◌, IfOk, IfErr, IfSome, length};
ghost use Rattle.std.specs.Arc.{arc_value};
ghost use Rattle.std.specs.Iterator.{at_most};
ghost use Rattle.front_reference.specs.declared.errors.CacheError.TheVariants as errors;
ghost use Rattle.moka_sync.specs.Showing.{ShowsItem};
ghost use Rattle.std.specs.Sync.Forever.{forever_left};

use crate::cache::SharedCache;
use engine_reference::{Hashes, Rules};
use front_parts::HasWays;
use front_reference::{CacheError, Shared};
use front_state::Single;
use std::hash::{BuildHasher, Hash};
use std::sync::{Forever, Wait};
use sync_desk::Env;

/// An iterator over the visible keys of a shared cache, each once, with clones of their values. A value that is removed before its turn is
/// not returned.
/// Each item is a pair of a key and a value, or an error if there is not enough memory for them, after which the next call tries the same
/// place again.
#[derive(Drop)]
pub struct Iter<
    'a,
    K: Eq + Hash,
    V: Clone,
    S: BuildHasher,
    R: Rules<K, V>,
    E: Env,
    H: Wait,
    C = Single,
> {
    cache: &'a SharedCache<K, V, S, R, E, C>,
    rt: &'a H,
    // How many calls may still come.
    turns: Forever<'a, H>,
    // The keys of the segment before `place` that are still to be tried, the next one last.
    keys: Vec<Shared<K>>,
    place: usize,
    ghost exact: { (x y : V) → V.is_clone x y → y ≡ x },
}

impl<
    K: Eq + Hash + Drop,
    V: Clone + Drop,
    S: BuildHasher + Drop,
    R: Rules<K, V> + Drop,
    E: Env + Drop,
    C: Drop,
> SharedCache<K, V, S, R, E, C> {
    /// The keys of a segment.
    fn keys_of<H: Wait>(&self, rt: &H, segment: usize) -> Result<Vec<Shared<K>>, CacheError>
        requires exact { (x y : V) → V.is_clone x y → y ≡ x }
        ensures cause { IfErr result (λ e. e ≡ errors.OutOfMemory) }
    {
        match self.inner.keys(rt, segment)? {
            Some(keys) => Ok(keys),
            None => Ok(Vec::new(self.alloc)),
        }
    }

    /// A clone of the visible value of a key. It does not count as a use.
    fn scan<H: Wait>(&self, rt: &H, key: &Shared<K>) -> Result<Option<V>, CacheError>
        requires exact { (x y : V) → V.is_clone x y → y ≡ x }
        ensures shown { IfOk result (λ found. IfSome found (λ value. ShowsItem
            ⟦<R as HasWays<K, V, S>>⟧.ways (⟦<S as Hashes<K>>⟧.hash)
            (arc_value self.now.inner).spread (key.now, value))) }
        ensures cause { IfErr result (λ e. e ≡ errors.OutOfMemory) }
    {
        let mut guard = self.inner.lock_of(rt, &**key);
        let desk = &mut *guard;
        desk.scan(&**key)
    }

    /// The value of the last key, which is then removed.
    fn try_last<H: Wait>(
        &self,
        rt: &H,
        keys: &mut Vec<Shared<K>>,
    ) -> Result<Option<(Shared<K>, V)>, CacheError>
        requires exact { (x y : V) → V.is_clone x y → y ≡ x }
        requires some { 0 < length keys.old.items }
        ensures shown { IfOk result (λ found. IfSome found (ShowsItem
            ⟦<R as HasWays<K, V, S>>⟧.ways (⟦<S as Hashes<K>>⟧.hash)
            (arc_value self.now.inner).spread)) }
        ensures shorter { IfOk result (λ _. length keys.new.items < length keys.old.items) }
        ensures cause { IfErr result (λ e. e ≡ errors.OutOfMemory) }
    {
        let last = keys.len() - 1;
        let value = self.scan(rt, &keys[last])?;
        let key = match keys.pop() {
            Some(key) => key,
            None => unreachable!(),
        };
        match value {
            Some(value) => Ok(Some((key, value))),
            None => Ok(None),
        }
    }

    /// The last key that has a value, with its value. It is removed, and so are those after it.
    fn take_last<H: Wait>(
        &self,
        rt: &H,
        keys: &mut Vec<Shared<K>>,
    ) -> Result<Option<(Shared<K>, V)>, CacheError>
        requires exact { (x y : V) → V.is_clone x y → y ≡ x }
        ensures shown { IfOk result (λ found. IfSome found (ShowsItem
            ⟦<R as HasWays<K, V, S>>⟧.ways (⟦<S as Hashes<K>>⟧.hash)
            (arc_value self.now.inner).spread)) }
        ensures cause { IfErr result (λ e. e ≡ errors.OutOfMemory) }
    {
        while !keys.is_empty() {
            match self.try_last(rt, keys)? {
                Some(pair) => return Ok(Some(pair)),
                None => {}
            }
        }
        Ok(None)
    }

    /// The first pair that is still to come, from the keys and from the segments at and after `place`.
    fn advance<H: Wait>(
        &self,
        rt: &H,
        keys: &mut Vec<Shared<K>>,
        place: &mut usize,
    ) -> Result<Option<(Shared<K>, V)>, CacheError>
        requires exact { (x y : V) → V.is_clone x y → y ≡ x }
        ensures shown { IfOk result (λ found. IfSome found (ShowsItem
            ⟦<R as HasWays<K, V, S>>⟧.ways (⟦<S as Hashes<K>>⟧.hash)
            (arc_value self.now.inner).spread)) }
        ensures cause { IfErr result (λ e. e ≡ errors.OutOfMemory) }
    {
        let count = self.policy().num_segments();
        while *place < count {
            match self.take_last(rt, keys)? {
                Some(pair) => return Ok(Some(pair)),
                None => {}
            }
            *keys = self.keys_of(rt, *place)?;
            *place += 1;
        }
        self.take_last(rt, keys)
    }
}

impl<
    'a,
    K: Eq + Hash + Drop,
    V: Clone + Drop,
    S: BuildHasher + Drop,
    R: Rules<K, V> + Drop,
    E: Env + Drop,
    H: Wait,
    C: Drop,
> Iter<'a, K, V, S, R, E, H, C> {
    /// An iterator that has returned nothing. It allocates nothing, but its items do.
    pub(crate) fn new(cache: &'a SharedCache<K, V, S, R, E, C>, rt: &'a H) -> Self
        requires exact { (x y : V) → V.is_clone x y → y ≡ x }
        ensures { result.cache.now ≡ cache.now }
    {
        Iter {
            cache,
            rt,
            turns: rt.forever(),
            keys: Vec::new(cache.alloc),
            place: 0,
        }
    }
}

impl<
    'a,
    K: Eq + Hash + Drop,
    V: Clone + Drop,
    S: BuildHasher + Drop,
    R: Rules<K, V> + Drop,
    E: Env + Drop,
    H: Wait,
    C: Drop,
> Iterator for Iter<'a, K, V, S, R, E, H, C> {
    type Item = Result<(Shared<K>, V), CacheError>;

    ghost use Rattle.std.specs.Prelude.{IfSome, IfOk};
    ghost use Rattle.std.specs.Arc.{arc_value};
    ghost use Rattle.moka_sync.specs.Showing.{ShowsItem};

    ghost next_gives = { λ it item _. IfSome item (λ shown. IfOk shown (ShowsItem
        ⟦<R as HasWays<K, V, S>>⟧.ways (⟦<S as Hashes<K>>⟧.hash)
        (arc_value it.cache.now.inner).spread)) };

    ghost remaining = { λ it. at_most (forever_left it.turns) };

    fn next(&mut self) -> Option<Result<(Shared<K>, V), CacheError>> {
        self.turns.next();
        match self.cache.advance(self.rt, &mut self.keys, &mut self.place) {
            Ok(Some(pair)) => Some(Ok(pair)),
            Ok(None) => None,
            Err(_) => Some(Err(CacheError::OutOfMemory)),
        }
    }
}
