//! Calls on all segments: predicates, notices, maintenance by another name.
ghost use Rattle.std.specs.Prelude.{◌≡◌, ◌≤◌, None, IfErr, IfSome};
ghost use Rattle.std.specs.Arc.{arc_value};
ghost use Rattle.front_reference.specs.declared.errors.CacheError.TheVariants as errors;
ghost use Rattle.moka_sync.specs.Holding.{DidCover, DidTell, DoneUnderEach, DoneUnderLock};
ghost use Rattle.moka_sync.specs.Spreading.{desk_count};
ghost use Rattle.moka_sync.specs.Telling.{AddsTold, DoneUnderRange, WasTold};
ghost use Rattle.sync_desk.specs.Slots.Refusals.{IsCoverRefusal};

use crate::cache::SharedCache;
use engine_reference::Rules;
use front_reference::{CacheError, Shared};
use front_state::{Notice, PredicateId, Segmented, Single};
use rand_core::Rng;
use std::hash::{BuildHasher, Hash};
use std::sync::Wait;
use std::sync::atomic::Ordering;
use sync_desk::{Desk, Env};

/// The older name of `run_pending_tasks`, as a trait.
pub trait ConcurrentCacheExt {
    /// Runs maintenance to its end, like `run_pending_tasks`, and returns its error.
    fn sync(&self, rt: &impl Wait) -> Result<(), CacheError>
        ensures cause { IfErr result (λ e. e ≡ errors.UsedUp) };
}

impl<
    K: Eq + Hash + Drop,
    V: Clone + Drop,
    S: BuildHasher + Drop,
    R: Rules<K, V> + Drop,
    E: Env + Drop,
    C: Drop,
> ConcurrentCacheExt for SharedCache<K, V, S, R, E, C> {
    fn sync(&self, rt: &impl Wait) -> Result<(), CacheError> {
        self.run_pending_tasks(rt)
    }
}

impl<
    K: Eq + Hash + Drop,
    V: Clone + Drop,
    S: BuildHasher + Drop,
    R: Rules<K, V> + Drop,
    E: Env + Drop,
> SharedCache<K, V, S, R, E, Single> {
    /// Invalidates the values that were written before and for which the predicate returns true. Returns the identifier of the predicate.
    /// Returns `InvalidationClosuresDisabled` if the builder did not call `support_invalidation_closures`, `IdsInUse` if each of a thousand
    /// identifiers that were drawn is already registered, `OutOfMemory` if there is not enough memory, and `UsedUp` if the cache's 64-bit
    /// numbers are used up.
    /// ```
    /// let id = cache.invalidate_entries_if(&rt, KeyPrefix(prefix))?;
    /// ```
    pub fn invalidate_entries_if(
        &self,
        rt: &impl Wait,
        predicate: R::Predicate,
    ) -> Result<PredicateId, CacheError>
        ensures did { DoneUnderLock 0
            (DidCover {K = K} {V = V} {S = S} {R = R} predicate result) }
        ensures cause { IfErr result IsCoverRefusal }
    {
        let mut guard = self.inner.first().lock(rt);
        let desk = &mut *guard;
        desk.invalidate_entries_if(predicate)
    }
}

impl<
    K: Eq + Hash + Drop,
    V: Clone + Drop,
    S: BuildHasher + Drop,
    R: Rules<K, V> + Drop,
    E: Env + Drop,
> SharedCache<K, V, S, R, E, Segmented> {
    /// Invalidates the values that were written before and for which the predicate returns true, in all segments or, if the call is
    /// refused, in none. Returns `InvalidationClosuresDisabled` if the builder did not call `support_invalidation_closures`, `IdsInUse` if
    /// each of a thousand identifiers that were drawn for a segment is already registered there, `OutOfMemory` if there is not enough
    /// memory, and `UsedUp` if the cache's 64-bit numbers are used up. (`moka` may stop halfway over the segments.)
    /// ```
    /// cache.invalidate_entries_if(&rt, KeyPrefix(prefix))?;
    /// ```
    pub fn invalidate_entries_if(
        &self,
        rt: &impl Wait,
        predicate: R::Predicate,
    ) -> Result<(), CacheError>
        ensures did { DoneUnderLock 0
            (DidCover {K = K} {V = V} {S = S} {R = R} predicate result) }
        ensures cause { IfErr result IsCoverRefusal }
    {
        let mut guard = self.inner.first().lock(rt);
        let desk = &mut *guard;
        desk.invalidate_entries_if(predicate)
    }
}

/// Adds the notices of a desk to a vector, as many as it has room for, the oldest first.
fn take_from<
    K: Eq + Hash + Drop,
    V: Clone + Drop,
    S: BuildHasher + Drop,
    R: Rules<K, V> + Drop,
    G: Rng + Drop,
    C: Drop,
>(desk: &mut Desk<K, V, S, R, G, C>, notices: &mut Vec<Notice<Shared<K>, V>>)
    ensures { AddsTold R.Predicate S R notices.old.items
        notices.new.items }
{
    while notices.len() < notices.capacity() {
        match desk.next_notice() {
            Some(notice) => notices.push_reserved(notice),
            None => return,
        }
    }
}

impl<
    K: Eq + Hash + Drop,
    V: Clone + Drop,
    S: BuildHasher + Drop,
    R: Rules<K, V> + Drop,
    E: Env + Drop,
    C: Drop,
> SharedCache<K, V, S, R, E, C> {
    /// Takes the oldest notice of the first desk that has one, of those from one number up to another.
    fn next_between(&self, rt: &impl Wait, first: usize, end: usize) -> Option<Notice<Shared<K>, V>>
        requires { end ≤ desk_count (arc_value self.now.inner).spread }
        ensures told { IfSome result (WasTold R.Predicate S R) }
        ensures none { result ≡ None → DoneUnderRange first end
            (DidTell {K = K} {V = V} {P = R.Predicate} {S = S} {R = R} None) }
    {
        let inner = &*self.inner;
        for number in first..end {
            let mut guard = inner.get(number).lock_untimed(rt);
            let desk = &mut *guard;
            if let Some(notice) = desk.next_notice() {
                drop(guard);
                inner.next_asked.store(number, Ordering::SeqCst);
                return Some(notice);
            }
        }
        None
    }

    /// Takes the oldest notice of the first segment that has one: a key, its value, and why it left. Returns `None` if no segment has one.
    /// A cache has notices only if its builder called `report_removals`. Notices are kept until they are taken. With shards, the search
    /// begins where it found one last.
    /// ```
    /// if let Some(notice) = cache.next_notice(&rt) {
    ///     log(&notice.key, notice.cause);
    /// }
    /// ```
    pub fn next_notice(&self, rt: &impl Wait) -> Option<Notice<Shared<K>, V>>
        ensures told { IfSome result (WasTold R.Predicate S R) }
        ensures none { result ≡ None → DoneUnderEach
            (desk_count (arc_value self.now.inner).spread)
            (DidTell {K = K} {V = V} {P = R.Predicate} {S = S} {R = R} None) }
    {
        let count = self.inner.desks.len();
        let first = self.inner.ask_next();
        match self.next_between(rt, first, count) {
            Some(notice) => Some(notice),
            None => self.next_between(rt, 0, first),
        }
    }

    /// Adds the notices of the desks from one number up to another to a vector, as many as it has room for.
    fn take_between(
        &self,
        rt: &impl Wait,
        first: usize,
        end: usize,
        notices: &mut Vec<Notice<Shared<K>, V>>,
    )
        requires { end ≤ desk_count (arc_value self.now.inner).spread }
        ensures { AddsTold R.Predicate S R notices.old.items
            notices.new.items }
    {
        let inner = &*self.inner;
        for number in first..end {
            if notices.len() == notices.capacity() {
                return;
            }
            let mut guard = inner.get(number).lock_untimed(rt);
            let desk = &mut *guard;
            take_from(desk, notices);
        }
    }

    /// Adds notices to a vector, as many as it has room for, the oldest of a segment first. The call takes each lock at most once, and
    /// allocates nothing. With shards, each call begins one shard further than the one before it.
    /// ```
    /// let mut notices = Vec::with_capacity(alloc, 1000)?;
    /// cache.take_notices(&rt, &mut notices);
    /// ```
    pub fn take_notices(&self, rt: &impl Wait, notices: &mut Vec<Notice<Shared<K>, V>>)
        ensures { AddsTold R.Predicate S R notices.old.items
            notices.new.items }
    {
        let count = self.inner.desks.len();
        let first = self.inner.ask_next();
        self.inner
            .next_asked
            .store(first.wrapping_add(1), Ordering::SeqCst);
        self.take_between(rt, first, count, notices);
        self.take_between(rt, 0, first, notices);
    }
}
