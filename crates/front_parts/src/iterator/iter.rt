//! The iterator.
ghost use Rattle.std.specs.Prelude.{◌≡◌};
ghost use Rattle.front_parts.specs.Iterator.Coming.{GivesNext, all_pairs, source_at};

use crate::iterator::keys::advance;
use crate::iterator::scanning::ScanningGet;
use front_reference::CacheError;
use policy_base::Instant;
use std::alloc::Global;
use std::marker::{Model, PhantomData};

/// The keys and values that are visible at a moment, each once. Returning a value does not count as a use of it.
/// Each item is a pair of a key and a clone of its value, or an error if there is not enough memory for them, after which the next call
/// tries the same place again.
#[derive(Drop)]
pub struct Iter<'a, K, V, C: ScanningGet<K, V>> {
    source: &'a C,
    now: Instant,
    // The keys of the segment before `place` that are still to be tried, the next one last.
    keys: Vec<K>,
    place: usize,
    values: PhantomData<V>,
}

impl<'a, K, V, C: ScanningGet<K, V>> Model for Iter<'a, K, V, C> {
    ghost use Rattle.front_parts.specs.Iterator.Coming.{Iteration, coming_of, source_at};

    ghost Value = { Iteration C K V };

    ghost view = { λ it. record {
      source = it.source.now;
      now = it.now;
      coming = coming_of (source_at C.segments C.keys_in C.value_of it.source.now it.now) it.keys.items it.place;
    } };
}

impl<'a, K: Drop, V, C: ScanningGet<K, V>> Iter<'a, K, V, C> {
    /// Creates an iterator over what is visible at a moment. The call allocates nothing.
    /// ```
    /// let pairs = Iter::new(alloc, &cache, now);
    /// ```
    pub fn new(alloc: Global, source: &'a C, now: Instant) -> Self
        ensures source { result.source ≡ source.now }
        ensures now { result.now ≡ now }
        ensures coming { result.coming
            ≡ all_pairs (source_at C.segments C.keys_in C.value_of source.now now) }
    {
        Iter {
            source,
            now,
            keys: Vec::new(alloc),
            place: 0,
            values: PhantomData,
        }
    }
}

impl<'a, K: Drop, V: Drop, C: ScanningGet<K, V>> Iterator for Iter<'a, K, V, C> {
    type Item = Result<(K, V), CacheError>;

    ghost can_next = { λ it. C.can_scan it.source };

    ghost next_gives = { GivesNext };

    fn next(&mut self) -> Option<Result<(K, V), CacheError>> {
        match advance(self.source, self.now, &mut self.keys, &mut self.place) {
            Ok(Some(pair)) => Some(Ok(pair)),
            Ok(None) => None,
            Err(_) => Some(Err(CacheError::OutOfMemory)),
        }
    }
}
