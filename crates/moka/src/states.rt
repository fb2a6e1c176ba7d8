//! Short ways to create a cache.
ghost use Rattle.std.specs.Prelude.{◌≡◌, ◌⊎◌, ℕ, Some, None, IfOk, IfErr, OnOk};
ghost use Rattle.moka.specs.Building.{blank, segments_fault};
ghost use Rattle.moka.specs.declared.errors.BuildError.TheVariants.{OutOfMemory};

use crate::builder::CacheBuilder;
use crate::errors::BuildError;
use engine_reference::{Bundle, NoExpiry, NoPredicate, WeighOne};
use front_state::{LentState, Segmented, Single};
use policy_base::Instant;
use std::alloc::Global;
use std::hash::{BuildHasherDefault, FoldHasher, Hash};

/// std's hasher without a random seed. If untrusted clients choose the keys, pass a hasher that they cannot predict to `build_state`, such
/// as `RandomState`.
pub type StdHasher = BuildHasherDefault<FoldHasher>;

/// The rules of a cache on which none was set: each value weighs one and does not expire by itself; no predicates, and faults without
/// content.
pub type PlainRules = Bundle<NoExpiry, WeighOne, NoPredicate, ()>;

/// A builder of a cache with `PlainRules`, of one segment or of several.
pub type PlainBuilder<C = Single> = CacheBuilder<NoExpiry, WeighOne, NoPredicate, (), C>;

/// A cache of one segment, which its owner lends.
pub type CacheState<K, V, S = StdHasher, R = PlainRules> = LentState<K, V, S, R, Single>;

/// A cache of several segments, which its owner lends.
pub type SegmentedState<K, V, S = StdHasher, R = PlainRules> = LentState<K, V, S, R, Segmented>;

/// Creates a cache of one segment.
pub trait NewState: Sized {
    // it is new, and was created with this capacity at this moment, and with nothing else set
    ghost is_new: { Self → (max_capacity moment : ℕ) → Type 0 };

    /// Creates a cache that holds at most this weight, at this moment. The only possible error is `OutOfMemory`. Nothing else is set, and
    /// keys are hashed with std's hasher (without a random seed).
    /// ```
    /// let cache: CacheState<u64, u64> = CacheState::new(alloc, 1000, moment)?;
    /// ```
    fn new(alloc: Global, max_capacity: u64, moment: Instant) -> Result<Self, BuildError>
        ensures built { IfOk result (λ state. is_new state max_capacity moment) }
        ensures cause { IfErr result (λ e. e ≡ OutOfMemory) };

    /// Returns a builder with nothing set: no capacity, no times, TinyLFU, one segment.
    /// ```
    /// let builder = CacheState::<u64, u64>::builder().time_to_idle(minute);
    /// ```
    fn builder() -> PlainBuilder
        ensures { result.plan ≡ blank };
}

/// Creates a cache of several segments.
pub trait NewSegmentedState: Sized {
    // it is new, and was created with this capacity and at least this many segments at this moment, and with nothing else set
    ghost is_new: { Self → (max_capacity segments moment : ℕ) → Type 0 };

    /// Creates a cache that holds at most this weight in this many segments, rounded up to a power of two, at this moment. Nothing else is
    /// set, and keys are hashed with std's hasher (without a random seed). The number of segments is 1 to 65,536. Returns `NoSegments` for
    /// 0, `TooManySegments` for a greater number, and `OutOfMemory` if there is not enough memory.
    /// ```
    /// let cache: SegmentedState<u64, u64> = SegmentedState::new(alloc, 1000, 4, moment)?;
    /// ```
    fn new(
        alloc: Global,
        max_capacity: u64,
        segments: usize,
        moment: Instant,
    ) -> Result<Self, BuildError>
        ensures built { IfOk result (λ state. is_new state max_capacity segments moment) }
        ensures sound { OnOk result (segments_fault segments ≡ None) }
        ensures cause { IfErr result (λ e. (segments_fault segments ≡ Some e)
            ⊎ ((e ≡ OutOfMemory) × (segments_fault segments ≡ None))) };

    /// Returns a builder with this number of segments, and nothing else set.
    /// ```
    /// let builder = SegmentedState::<u64, u64>::builder(4).max_capacity(1000);
    /// ```
    fn builder(segments: usize) -> PlainBuilder<Segmented>
        ensures { result.plan ≡ record blank { segments = segments } };
}

impl<K: Eq + Hash + Drop, V: Drop> NewState for LentState<K, V, StdHasher, PlainRules, Single> {
    ghost use Rattle.moka.specs.Building.{IsBuiltPlainly};

    ghost is_new = { λ state max_capacity moment. IsBuiltPlainly max_capacity 1 moment state };

    fn new(alloc: Global, max_capacity: u64, moment: Instant) -> Result<Self, BuildError> {
        CacheBuilder::new(max_capacity).build_state(alloc, BuildHasherDefault::new(), moment)
    }

    fn builder() -> PlainBuilder {
        CacheBuilder::default()
    }
}

impl<K: Eq + Hash + Drop, V: Drop> NewSegmentedState
    for LentState<K, V, StdHasher, PlainRules, Segmented> {
    ghost use Rattle.moka.specs.Building.{IsBuiltPlainly};

    ghost is_new = { λ state max_capacity segments moment.
        IsBuiltPlainly max_capacity segments moment state };

    fn new(
        alloc: Global,
        max_capacity: u64,
        segments: usize,
        moment: Instant,
    ) -> Result<Self, BuildError> {
        CacheBuilder::new(max_capacity)
            .segments(segments)
            .build_state(alloc, BuildHasherDefault::new(), moment)
    }

    fn builder(segments: usize) -> PlainBuilder<Segmented> {
        CacheBuilder::default().segments(segments)
    }
}
