//! Calls on all segments: predicates, notices, and what iterators read.
ghost use Rattle.std.specs.Prelude.{◌≡◌, ◌≤◌, ℕ, true, false, IfErr, IfOk, MatchOption, OnOk, OnErr, length};
ghost use Rattle.std.specs.Result.{IsErrOf};
ghost use Rattle.std.specs.String.{string_bytes};
ghost use Rattle.front_parts.specs.Wholes.Covering.{id_text};
ghost use Rattle.front_reference.specs.declared.errors.CacheError.TheVariants as errors;
ghost use Rattle.front_reference.specs.Wholes.{next_told, without_told};
ghost use Rattle.front_state.specs.Covering.{keys_of_part};
ghost use Rattle.sync_desk.specs.Drawing.{CoversAsDrawn, IsCauseToCoverAsDrawn, IsDrawn, SeesAsDrawn};

use crate::desk::Desk;
use engine_reference::Rules;
use front_parts::{HasWays, ScanningGet};
use front_reference::{At, CacheError, Shared};
use front_state::{PredicateId, Segmented, Single};
use moka_engine::Notice;
use rand_core::Rng;
use std::hash::{BuildHasher, Hash};

impl<
    K: Eq + Hash + Drop,
    V: Clone + Drop,
    S: BuildHasher + Drop,
    R: Rules<K, V> + Drop,
    G: Rng + Drop,
> Desk<K, V, S, R, G, Single> {
    /// Invalidates the values that were written before and for which the predicate returns true, in all segments or, if it is refused, in
    /// none. Returns the predicate's identifier, in hyphenated form, 36 bytes in lower case. Returns `InvalidationClosuresDisabled` if the
    /// cache accepts no predicates, `OutOfMemory` if there is not enough memory, `UsedUp` if the 64-bit numbers of calls or writes are used
    /// up, and `IdsInUse` if each of a thousand identifiers that were drawn for a segment is registered there; then the cache is as before.
    pub fn invalidate_entries_if(
        &mut self,
        predicate: R::Predicate,
    ) -> Result<PredicateId, CacheError>
        ensures covers { IfOk result (λ text. (id : ℕ) × (string_bytes text ≡ id_text id)
            × CoversAsDrawn self.old.moment predicate (G.stream self.old.generator)
            (G.stream self.new.generator) id self.old.state self.new.state) }
        ensures takes { OnOk result (self.old.state.common.settings.takes_predicates ≡ true) }
        ensures first { self.old.state.common.settings.takes_predicates ≡ false
            → IsErrOf result errors.InvalidationClosuresDisabled }
        ensures err { OnErr result (self.new.state ≡ self.old.state) }
        ensures rest { self.new
            ≡ record self.old { state = self.new.state; generator = self.new.generator } }
        ensures cause { IfErr result (IsCauseToCoverAsDrawn (G.stream self.old.generator)
            (G.stream self.new.generator) self.old.state) }
    {
        match self.draw_to_cover() {
            Ok(at) => {
                let Desk {
                    state,
                    generator,
                    ..
                } = self;
                state.invalidate_entries_if(predicate, generator, at)
            }
            Err(refused) => Err(refused),
        }
    }
}

impl<
    K: Eq + Hash + Drop,
    V: Clone + Drop,
    S: BuildHasher + Drop,
    R: Rules<K, V> + Drop,
    G: Rng + Drop,
> Desk<K, V, S, R, G, Segmented> {
    /// Invalidates the values that were written before and for which the predicate returns true, in all segments or, if it is refused, in
    /// none. Returns `InvalidationClosuresDisabled` if the cache accepts no predicates, `OutOfMemory` if there is not enough memory,
    /// `UsedUp` if the 64-bit numbers of calls or writes are used up, and `IdsInUse` if each of a thousand identifiers that were drawn for
    /// a segment is registered there; then the cache is as before.
    pub fn invalidate_entries_if(&mut self, predicate: R::Predicate) -> Result<(), CacheError>
        ensures covers { OnOk result ((id : ℕ) × CoversAsDrawn self.old.moment predicate
            (G.stream self.old.generator) (G.stream self.new.generator) id
            self.old.state self.new.state) }
        ensures takes { OnOk result (self.old.state.common.settings.takes_predicates ≡ true) }
        ensures first { self.old.state.common.settings.takes_predicates ≡ false
            → IsErrOf result errors.InvalidationClosuresDisabled }
        ensures err { OnErr result (self.new.state ≡ self.old.state) }
        ensures rest { self.new
            ≡ record self.old { state = self.new.state; generator = self.new.generator } }
        ensures cause { IfErr result (IsCauseToCoverAsDrawn (G.stream self.old.generator)
            (G.stream self.new.generator) self.old.state) }
    {
        match self.draw_to_cover() {
            Ok(at) => {
                let Desk {
                    state,
                    generator,
                    ..
                } = self;
                state.invalidate_entries_if(predicate, generator, at)
            }
            Err(refused) => Err(refused),
        }
    }
}

impl<
    K: Eq + Hash + Drop,
    V: Clone + Drop,
    S: BuildHasher + Drop,
    R: Rules<K, V> + Drop,
    G: Rng + Drop,
    C: Drop,
> Desk<K, V, S, R, G, C> {
    /// The moment and step of a call with a predicate. A cache that takes none refuses that first.
    pub(crate) fn draw_to_cover(&self) -> Result<At, CacheError>
        ensures drawn { IfOk result (IsDrawn self.now.moment self.now.state) }
        ensures takes { OnOk result (self.now.state.common.settings.takes_predicates ≡ true) }
        ensures first { self.now.state.common.settings.takes_predicates ≡ false
            → IsErrOf result errors.InvalidationClosuresDisabled }
        ensures cause { IfErr result (IsCauseToCoverAsDrawn (G.stream self.now.generator)
            (G.stream self.now.generator) self.now.state) }
    {
        if !self.state.takes_predicates() {
            return Err(CacheError::InvalidationClosuresDisabled);
        }
        match self.draw() {
            Some(at) => Ok(at),
            None => Err(CacheError::UsedUp),
        }
    }

    /// Takes the oldest notice of the first segment that has one, or returns `None` if none has.
    pub fn next_notice(&mut self) -> Option<Notice<Shared<K>, V>>
        ensures notice { result ≡ next_told self.old.state.parts }
        ensures taken { self.new ≡ record self.old {
          state = record self.old.state { parts = without_told self.old.state.parts };
        } }
    {
        self.state.next_notice()
    }

    /// Returns clones of the keys of a segment, including those of expired and invalidated values, or `None` if there is no such segment.
    /// Returns `OutOfMemory` if there is no memory for the clones.
    pub fn keys(&self, segment: usize) -> Result<Option<Vec<Shared<K>>>, CacheError>
        requires exact { (x y : V) → V.is_clone x y → y ≡ x }
        ensures keys { IfOk result
            (λ keys. MatchOption keys (length self.now.state.parts ≤ segment)
            (λ found. found.items ≡ keys_of_part self.now.state segment)) }
        ensures cause { IfErr result (λ e. e ≡ errors.OutOfMemory) }
    {
        match self.state.keys(segment) {
            Ok(keys) => Ok(keys),
            Err(_) => Err(CacheError::OutOfMemory),
        }
    }

    /// Returns a clone of the visible value of a key, or `None`. The call does not count as a use, and changes nothing. Returns
    /// `OutOfMemory` if there is no memory for the clone.
    pub fn scan(&mut self, key: &K) -> Result<Option<V>, CacheError>
        requires exact { (x y : V) → V.is_clone x y → y ≡ x }
        ensures found { IfOk result
            (SeesAsDrawn ⟦<R as HasWays<K, V, S>>⟧.ways self.old.moment key.now self.old.state) }
        ensures same { self.new ≡ self.old }
        ensures cause { IfErr result (λ e. e ≡ errors.OutOfMemory) }
    {
        match self.state.peek(key, self.next_moment()) {
            Some(value) => match value.clone() {
                Ok(found) => Ok(Some(found)),
                Err(_) => Err(CacheError::OutOfMemory),
            },
            None => Ok(None),
        }
    }
}
